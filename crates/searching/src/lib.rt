// The joining border of two points of a packed map.
//
//     join_at    the first place about a point, in turning order, whose crossing lands at another; 0 if none does
//
// Conventions. Points count from 1; positions count from 0: position p is place p + 1. join_at asks that the bytes open and have
// the point that the search is about: whoever calls has checked.
//
// One loop turns about the point, from its first place, and yields the place by break. Few places are looked at by walking through
// the bytes; of many the first, and where it does not land there the map is surveyed, once for all of them. The source is document
// 01, "Moves"; the definition that the contract cites is that of the crate `format`.
#![tactic(auto)]

mod about;

pub use about::join_at;
