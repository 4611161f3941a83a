// The neighbours of an area of a packed map: the other areas across its sides, each counted once.
//
//     neighbours_at   how many other areas lie across the sides of an area
//
// Conventions. Areas count from 1; positions count from 0: position p is place p + 1. neighbours_at asks that the bytes open
// and have such an area: whoever calls has checked.
//
// One loop goes over the areas across the sides, in the list that the crate `landing` fills, and flags each. The flags, one for
// each area, stand on the stack. The source is document 02, 3/14; the definition that the contract cites is that of the crate
// `format`.
#![tactic(auto)]

mod across;

pub use across::neighbours_at;
