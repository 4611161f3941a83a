// The tariff: the factors of areas, and what an area without one is given. Definitions in specs/, laws in proofs/. The types of
// a factor and of a running sum are the code's too.
#![tactic(auto)]

mod factor;

pub use factor::{Factor, Running};
