// Check 7 of packing, in linear time.
//
//     find_crossing   7: the first pair of unmarked borders that alternate in the tour; none where no two do
//
// Conventions. The working list holds the tour and its second places, as the crate `touring` leaves
// them; its last third is used as a stack and left 0, and nothing else of it changes.
//
// The definitions that the contracts cite are in specs/ and in the crate `touring`.
#![tactic(auto)]

mod find;

pub use find::find_crossing;
