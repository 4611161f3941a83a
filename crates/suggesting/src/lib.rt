// Marks found for the drawer: checks 1 to 4 and 21, and the marks of a spanning tree. Linear in the number of borders.
//
//     suggest   writes the marks, or names the check that declines
//
// Conventions. A drawing is lent as its turning list and its marks, which are overwritten and not read; in a contract it is `lent`
// of the crate `drawing`, with any start. The working list has three thirds of 2m entries. It is used after check 3 and left
// with its first 6m entries 0.
//
// Check 2 is here, 1, 3 and 4 are in the crate `checking`, 21 and the marks in `reaching`. The definitions that the contract
// cites are in the crates `drawing` and `format`.
#![tactic(auto)]

mod marks;

pub use marks::suggest;
