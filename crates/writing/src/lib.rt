// The bytes of a map from the tour of its drawing, in linear time.
//
//     write_map   writes the header, A, B and B*
//
// Conventions. The working list holds the tour and its second places, as the crate `touring` leaves
// them. The output has room for the longest map, and nothing beyond the map changes.
//
// The definitions that the contracts cite are in specs/ and in the crates `format` and `touring`.
#![tactic(auto)]

mod write;

pub use write::write_map;
