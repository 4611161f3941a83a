// How many places a point or an area of a packed map has.
//
//     size_at   how many places have the number of a point, of an area
//
// Conventions. Points and areas count from 1. size_at asks that the bytes open and have such a point or
// area: whoever calls has checked. The count over the strings takes a family by its bit in the string A.
//
// The places are counted in one pass from the first, a run of letters at a time: bits::WIDEST bits of A and
// the brackets of the family that they stand for. What a run of letters does to a count is in
// specs/Runs.antt; the bits and how brackets pair are read by what `bits` and `matching` promise.
//
// The source is document 01, "Moves". The definition that the contract cites is that of the crate
// `format`.
#![tactic(auto)]

mod counts;
mod size;

pub use size::size_at;
