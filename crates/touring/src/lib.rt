// The tour of a drawing, in the working list of packing. Linear in the number of borders.
//
//     tour        the end at each position of the tour
//     seconds     which positions are second places of their borders, and which borders were met
//     border_in   the border that is met at a position
//
// Conventions. A drawing is lent as in the crate `checking`. The working list has three thirds of 2m
// entries: the tour, which places are second, and flags of the borders met, where later a stack stands. Positions count from 0.
// The functions are for the crates `crossing`, `writing` and `packing`, which meet what they ask.
//
// The definitions that the contracts cite are in specs/ and in the crates `drawing` and `checking`.
#![tactic(auto)]

mod chart;
mod work;

pub use chart::{seconds, tour};
pub use work::border_in;
