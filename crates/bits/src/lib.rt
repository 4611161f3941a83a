// Bit strings held in bytes: reading and writing bits, and counting them.
//
//     bit           bit i
//     rank          how many of the first i bits are v
//     select        the position of the j-th bit that is v
//     unused_zero   whether every bit from k on is 0
//     field         the w bits from p on as a number, the first lowest, for w up to WIDEST
//     count_in      how many of the w bits from p on are v, for w up to WIDEST
//     byte          byte k
//     set_bit       makes bit i be v
//     bytes_for     how many bytes k bits take
//
// Conventions. Bit i is bit i % 8 of byte i / 8, the lowest first. Positions count from 0, and so
// does the j of select. A read past the end is 0, and a write there changes nothing. No function asks
// anything of its caller: each states its answer, and what lent memory holds after it, for every input.
//
// The strings are A, B and B* of document 01, "Tour and packed map". The definitions that the
// contracts cite are in specs/; the laws that a caller may use are in proofs/Laws.antt and
// proofs/Stores.antt, and no others, and in proofs/Letters.antt of the word that three strings spell. Read as brackets,
// the strings are matched by the crates `matching` and, all at once, `pairing`.
#![tactic(auto)]

mod blocks;
mod numbers;
mod read;
mod runs;
mod write;

pub use numbers::bytes_for;
pub use read::{bit, rank, select, unused_zero};
pub use runs::{WIDEST, byte, count_in, field};
pub use write::set_bit;
