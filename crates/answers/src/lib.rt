// What a call is given and what it answers, in types that definitions and code share. A theory crate: definitions in specs/, laws
// in proofs/; of code only the number of a refusal.
//
//     Place, Point, Area       a number of each kind
//     Refusal                  why a call declines; `u8::from` gives its number
//     Size, Turn, Rehearsal    what opening, a turn and a rehearsal give
//
// Conventions. A place never serves as a point or an area number, so each kind has a type of its own. A call answers a Result: what
// it gives, or the refusal of the first of its checks that fails. specs/Means.antt says what each case means.
#![tactic(auto)]

mod given;
mod numbers;
mod refusal;

pub use given::{Rehearsal, Size, Turn};
pub use numbers::{Area, Place, Point};
pub use refusal::Refusal;
