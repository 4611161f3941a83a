// Packing a drawing: checks 1 to 7 of document 01, the tour, and the map's bytes. Linear in the number of borders.
//
//     pack   writes the map, or names the check that declines
//
// Conventions. A drawing is lent as its turning list, its marks and its start; in a contract it is
// `lent` of the crate `drawing`. Within the crate it is a `Lent`, in a contract `drawn`, of the crate
// `checking`. The working list has three thirds of 2m entries. It is used after check 3 and left with
// its first 6m entries 0. The output is touched only where every check passed.
//
// Check 2 is here, 1, 3 and 4 are in the crate `checking`, 5 and the points for 6 in `reaching`, 7 is in `crossing`,
// the tour in `touring`, the bytes in `writing`. The definitions that the contracts
// cite are in specs/ and in the crates `drawing` and `format`.
#![tactic(auto)]

mod checks;

pub use checks::pack;
