// Bracket words: definitions in specs/, laws in proofs/. The type of a family is the code's too.
#![tactic(auto)]

mod family;

pub use family::Family;
