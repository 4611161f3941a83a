// Bracket matching over a whole word of two families, in one pass over its strings of bits.
//
//     pair   fills three lists, each with an entry for every letter: its mate, and its numbers by the square and by the round brackets
//
// Conventions. The number of letters goes beside the bytes: it is not their length. Bit i is bit i % 8 of byte i / 8, the lowest first. Positions count from 0. Bit p of A is 1 where letter p is a
// round bracket, 0 where it is a square one; each family has a string of its own with a bit for each of its letters in order, 0
// where it opens and 1 where it closes. Both strings stand in one memory, each from a bit that the caller names. Entry p of `mates`
// is the position of the bracket that letter p is paired with; a number is 1 and how many brackets of the family open before the
// first position inside the innermost one open there. The entries beyond the last letter stay as they were.
//
// `pair` asks that both families are balanced: whoever calls has checked. What it asks and what the lists hold is said in
// specs/Paired.antt, of the word that the strings spell, by the definitions of the crates `bits` and `words`. The crate `matching`
// answers for one bracket at a time.
#![tactic(auto)]

mod pass;

pub use pass::pair;
