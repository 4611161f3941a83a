// The layout of a packed map: what the header has, and the strings A, B and B*.
//
//     borders        m
//     points         n
//     areas          m-n+2, how many areas there are
//     written_areas  the count of areas as the header has it
//     bits_a         how many bits A has: one for each place
//     bits_b         how many bits B or B* has
//     map_length     the length of the whole map, as the header has it
//     part_a         the bytes of A
//     part_b         the bytes of B or B*
//     start_b        where they begin
//     family_bit     the bit that A has at the places of a family
//
// Conventions. Round brackets are those of B, square ones those of B*. A header byte past the end is 0,
// and a string has the bytes that are there. No function asks anything of its caller.
//
// The source is document 01, "Tour and packed map", and document 02, 6/14. The definitions that the
// contracts cite are those of the crate `format`.
#![tactic(auto)]

mod header;
mod strings;

pub use header::{areas, borders, points, written_areas};
pub use strings::{bits_a, bits_b, family_bit, map_length, part_a, part_b, start_b};
