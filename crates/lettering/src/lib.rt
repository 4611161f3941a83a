// The bytes of a map, begun and then written letter after letter.
//
//     begin_map             zeros over the map's length, and its header
//     Letters               where B and B* begin and the map ends, and how far it has come
//     Letters::put_letter   puts the next letter: its bit of A, and its bit of B or B*
//
// Conventions. The output has room for the longest map, and nothing beyond the map changes. The caller says of each letter
// whether it is round and whether it closes. Whatever the word, the letters put are its map as soon as all are put: the laws
// are in proofs/Keeping.antt and proofs/Ending.antt.
//
// The definitions that the contracts cite are in specs/ and in the crate `format`.
#![tactic(auto)]

mod put;

pub use put::{Letters, begin_map};
