// Moves and numbers on a packed map, from raw bytes.
//
//     cross, turn, turn_back, along   the four moves: from a place to a place
//     point_at, area_at               the point and the area of a place
//     point_first, area_first         the first place of a point, of an area
//     degree, sides                   how many places a point, an area has
//     neighbours                      how many other areas lie across the sides of an area
//     joining                         the first place about a point whose crossing lands at another point
//
// Conventions. Places, points and areas each count from 1, and each kind of number has a type of its
// own. A place of 0 says that there is none: no joining border, an empty map. A turn says with its
// place whether it has gone round the point. No function asks anything of its caller: on any bytes and
// any number it answers, or it declines with the refusal of the first check that fails.
//
// The source is document 01, "Moves", for the answers, with document 02, 3/14, for the neighbours and
// 8/14 for the turns, and 01's table, rows 8 to 15, with document 02, 6/14, for the checks. The
// definitions that the contracts cite are those of the crate `format`. The checks are those of `opening`;
// what is asked at a place is in the crate `moving`.
#![tactic(auto)]

mod numbers;
mod search;

pub use moving::{along, area_at, cross, point_at, turn, turn_back};
pub use numbers::{area_first, degree, neighbours, point_first, sides};
pub use search::joining;
