// A tariff in the code's hands: the two lists that a caller lends, and the running sum of factors across an area's sides.
//
//     Tariff        the two lists: whether they are those of so many areas, and all that they say is allowed (18); what they say of
//                   an area
//     hold          a factor held between its floor and its ceiling
//     add           a running sum with one factor more, if it is known
//     mean_of       its mean
//
// Conventions. Areas count from 1. The lists have one kind byte for each area (0 own, 1 held, 2 not known) and three numbers
// (factor, floor, ceiling). Whoever asks for a factor has checked that there is an entry; a running sum has at most one factor for
// each place of a map.
//
// The source is document 02, 4/14; the definitions that the contracts cite are those of the crate `tariff`.
#![tactic(auto)]

mod entries;
mod running;

pub use entries::Tariff;
pub use running::{add, hold, mean_of};
