// From an answer to a status and the slots that a C host lends: memory for one number each.
//
//     give          an answer in one slot: a place, a point, an area, a number, a factor
//     Slotted       what may be given so, and as what
//     give_turn     where a turn leads and whether it has gone round, in two
//     give_size     m and n in two
//     give_length   what packing returns, and its length
//
// Conventions. Each returns the status, 0 or the number of the check that declines: a number, as C is returned it. A refusal leaves the slots as they were. Slots
// of 16 bits are filled with numbers that fit: whoever calls has seen to it.
//
// The definitions that the contracts cite are those of the crate `answers`, specs/Lent, which says what memory holds after a call;
// specs/Desk has what packing returns in one number.
#![tactic(auto)]

mod packed;
mod slots;

pub use packed::give_length;
pub use slots::{Slotted, give, give_size, give_turn};
