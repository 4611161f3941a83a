// Memory that a caller lends: lists of 16-bit numbers and of bytes.
//
//     Zero    a kind of number whose lists can be cleared: u16 and u8
//     clear   makes the first k entries of a list 0
//
// Conventions. No function asks anything of its caller: each states its answer, and what the memory lent holds after it, for
// every input. For numbers of both kinds that is `cleared` of the crate `answers`, specs/Lent; proofs/ has the laws for those who
// fill a list.
#![tactic(auto)]

mod lists;

pub use lists::{Zero, clear};
