// The C interface of a packed map (include/pmap.h; the archive is libpmap.a).
//
//     pmap_open                                              m and n
//     pmap_cross, pmap_turn, pmap_turn_back, pmap_along      from a place to a place
//     pmap_point, pmap_area                                  the point and the area of a place
//     pmap_point_first, pmap_degree                          of a point
//     pmap_area_first, pmap_sides, pmap_neighbours           of an area
//     pmap_factor                                            of an area, by its insurer's lists
//     pmap_joining                                           the joining border of two points
//     pmap_session                                           a list of calls in one: moves, points and areas
//     pmap_marks                                             marks of a spanning tree, for a drawing that has none
//     pmap_pack, pmap_unpack                                 from a drawing to a map, and back
//
// Conventions. Each function returns a status: 0, or the number of the check that declines. The answer goes to
// slots and lists that the host lends, and a call that declines leaves them as they were. Only the working lists of
// pmap_marks and pmap_pack are cleared by most refusals too, and only pmap_pack returns more than a status: the pair
// of borders that 7 carries. Numbers come in as usize, so that nothing is cut: place 65,537 is declined, not taken for 1. No
// function asks anything of its caller.
//
// The functions only pass on what the crates `opening`, `map`, `rating`, `sessions`, `suggesting`, `packing` and `unpacking`
// answer. The definitions that the contracts cite are those of the theory: `format` and `tariff` for the calls, `answers` for the
// status and what the memory lent holds after a call.
#![tactic(auto)]

mod areas;
mod desk;
mod places;
mod points;
mod session;
mod size;

pub use areas::{pmap_area_first, pmap_factor, pmap_neighbours, pmap_sides};
pub use desk::{pmap_marks, pmap_pack, pmap_unpack};
pub use places::{pmap_along, pmap_area, pmap_cross, pmap_point, pmap_turn, pmap_turn_back};
pub use points::{pmap_degree, pmap_joining, pmap_point_first};
pub use session::pmap_session;
pub use size::pmap_open;
