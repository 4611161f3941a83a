// Unpacking a packed map into a drawing: its turning list and its marks, in lent lists.
//
//     unpack   writes the turning list and the marks, and answers m; or names the check that declines
//
// Conventions. Position p of the word is place p + 1. Unpacking numbers borders by their first places;
// the first place is the even end, the second the odd one, and the start is end 0. unpack takes any
// bytes and any lists: where it declines, the lists stay as they were, and where it answers m, the
// entries after the first 2m turning entries and the first m marks do.
//
// After the checks there are three passes over the positions, each in time in proportion to m: the
// mates (the crate `surveying`), the ends, and the drawing from both, in lists on the function's own
// stack.
//
// The source is document 01, "Tour and packed map", and its table, rows 8 to 12 and 16, with document 02,
// 6/14. The drawing of a word is defined in the crate `format`; the crate `answers` says what an answer means,
// and what the lists hold after it.
#![tactic(auto)]

mod ends;
mod lists;

pub use lists::unpack;
