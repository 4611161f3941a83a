// The bracket word that a map's bytes hold, walked through its three strings.
//
//     family_at          the family of the bracket at a position
//     own_mate_at        the partner of a position, in its own family
//     mate_at            its partner in a family
//     after              the position after one, and 0 after the last
//     step_at            the next position about the same point, the same area
//     step_past          the same, from a partner
//     before             the position before one, and the last before 0
//     back_at            the reverse of step_at
//     number_at          the number of its point, of its area, by the family
//     point_of, area_of  its point, its area
//     first_at           the first position of a point, of an area
//     turn_to            turn, from a step: where it leads, and whether it has gone round
//     turn_back_to       turn back, from a step back
//
// Conventions. Positions count from 0: position p is place p + 1. Points and areas count from 1. Round
// brackets enclose points, square ones areas; what holds of both is written once, for a family of
// brackets. But for family_at, the functions ask that the bytes open and have such a position, point or
// area: whoever calls has checked.
//
// The source is document 01, "Tour and packed map" and "Moves". The definitions that the contracts cite
// are those of the crate `words`, of the word that `format` finds in the bytes; specs/Positions.antt
// says what is asked.
#![tactic(auto)]

mod turning;
mod word;

pub use turning::{turn_back_to, turn_to};
pub use word::{
    after, area_of, back_at, before, family_at, first_at, mate_at, number_at, own_mate_at,
    point_of, step_at, step_past,
};
