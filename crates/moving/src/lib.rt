// What is asked at a place of a packed map, from raw bytes.
//
//     cross, turn, turn_back, along   the four moves: from a place to a place
//     point_at, area_at               the point and the area of a place
//
// Conventions. Places, points and areas each count from 1, and each kind of number has a type of its own. A turn says with its
// place whether it has gone round the point. No function asks anything of its caller: on any bytes and any number it answers, or it
// declines with the refusal of the first check that fails.
//
// The source is document 01, "Moves", with document 02, 8/14, for the answers, and 01's table, rows 8 to 13, with document 02, 6/14,
// for the checks. The definitions that the contracts cite are those of the crate `format`; the checks are those of `opening`.
#![tactic(auto)]

mod moves;
mod numbers;

pub use moves::{along, cross, turn, turn_back};
pub use numbers::{area_at, point_at};
