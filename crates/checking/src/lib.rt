// Checks 1, 3 and 4 of packing, and how many marks there are for 6, on a drawing that is lent as lists. Each is linear in the
// number of borders.
//
//     Lent           a drawing, as it is lent: turning list, marks and start
//     lengths_fit    1: the turning list is twice as long as the marks, and at most 4,096 long
//     in_range       3, of a Lent: entries and start are below 2m, and marks are 0 or 1
//     entries_fit    3, where marks and start are not looked at: entries are below 2m
//     is_distinct    4: no two entries of the turning list are equal
//     count_marks    6: how many borders are marked
//     other          the other end of an end's border
//
// Conventions. A drawing is lent as its turning list, its marks and its start; in a contract it is
// `drawn`. A check that does not look at all three is lent those that it does, and its contract has
// `lent` of them, with any others. Ends and borders count from 0. The first 6m entries of the working
// list, three for each end, are 0 where it is lent to 4, and it is left as it was. A check asks for
// what the checks before it have found.
//
// The checks are those of document 01, the table of refusals; 2 is in the crate `packing`, 5 in `reaching`, 7 in
// `crossing`. The definitions that the contracts cite are in specs/ and in the crate `drawing`; the laws that a
// caller meets the requirements with, and reads the answers with, are in proofs/Laws.antt.
#![tactic(auto)]

mod distinct;
mod ends;
mod lists;

pub use distinct::is_distinct;
pub use ends::other;
pub use lists::{Lent, count_marks, entries_fit, lengths_fit};
