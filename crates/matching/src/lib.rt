// Bracket matching over strings of bits held in bytes, a byte at a time.
//
//     is_balanced   whether the first n bits, read as brackets, are balanced
//     partner       the position of the bracket that bracket i is paired with
//     enclosing     the innermost bracket that is open just before position i
//     ahead         what a scan from position p to n leaves: the brackets that wait for a partner, or where it stops
//     Scan          the answer of ahead
//
// Conventions. Bit i is bit i % 8 of byte i / 8, the lowest first; 0 opens and 1 closes. Positions
// count from 0. A bit past the end is 0. The number of bits goes beside the bytes: it is not their length,
// and the definitions take any. No function asks anything of its caller.
//
// The strings are B and B* of document 01, "Tour and packed map". The definitions that the contracts
// cite are those of the crates `bits` and `words`; specs/Scans.antt says what a scan leaves. The laws
// that a caller may use are in proofs/Laws.antt, and no others.
#![tactic(auto)]

mod backwards;
mod bytes;
mod forwards;
mod pairs;
mod scans;

pub use forwards::ahead;
pub use pairs::{enclosing, is_balanced, partner};
pub use scans::Scan;
