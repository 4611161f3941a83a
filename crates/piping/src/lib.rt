// Standard input and output of a program.
//
//     Program      what a program prints for what it read
//     run          reads a program's input, and prints what the program makes of it
//     read_input   fills lent memory from a reader, and tells whether the input was read to its end
//     print        writes a text to one writer; where that can't be done, says so to another
//
// Conventions. The bytes read stand at the start of the memory lent. An input that fills the memory counts as read to
// its end, and nothing more of it is read: a program reads one byte more than its longest input has, or
// knows what it prints for the bytes that fit. No function asks anything of its caller; a program's `respond`, which `run` alone
// calls, asks that no more bytes were read than there are. A program lends its memory, and the streams of its runtime, of whose
// bytes nothing is known; of a reader whose bytes are known, the contract of `read_input` says which were read.
//
// The sources are document 01, "Listing": the program "reads a drawing from standard input"; and document 02, 1/14:
// "A program reads a map's bytes from standard input and prints it". The crate `text`, specs/Heard, says what a program prints where
// its input was not read to its end, specs/Input which of its numbers `read_input` answers, and proofs/Ending.antt has the laws for both cases.
#![tactic(auto)]

mod program;
mod streams;

pub use program::{Program, run};
pub use streams::{Cut, print, read_input};
