// Which ends are reached from end 0 by turning about points and crossing the borders of a set: one search for check 5, for the
// number of points and for the marks of a spanning tree. Linear in the number of borders.
//
//     joined_points   5 and 6: n, the number of points, if the marked borders join them all
//     find_tree       21: whether all borders join all points; if they do, the marks of a spanning tree
//
// Conventions. A drawing is lent as its turning list and its marks; in a contract it is `lent`, with any start. Both ask
// for what checks 1 to 4 have found. The first 6m entries of the working list, three for each end, are 0 where it is lent,
// and it is left as it was. `find_tree` writes its marks and lends them to no search.
//
// The definitions that the contracts cite are in specs/ and in the crate `drawing`; 4 is in the crate `checking`.
#![tactic(auto)]

mod search;
mod tree;

pub use tree::{find_tree, joined_points};
