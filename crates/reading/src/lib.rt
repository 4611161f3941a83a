// Reading the text of a drawing into lent lists.
//
//     parse   writes the turning list and the marks of the drawing that the text denotes, and answers m;
//             or declines with 17
//
// Conventions. What is read of a text is answered with the text after it, or nothing is. Where
// parse declines, the lists stay as they were, and where it answers m, the entries after the first
// 2m turning entries and the first m marks do: 4,096 and 2,048 entries have room for every drawing.
// The text is read twice, line by line, once to see that all of it is well formed and once to write.
//
// The source is document 01, "Listing", and its table, row 17. What a text denotes is defined in the
// crate `text`; the crate `answers` says what an answer means, and what the lists hold after it.
#![tactic(auto)]

mod fields;
mod lines;
mod lists;
mod parts;

pub use lists::parse;
