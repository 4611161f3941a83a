// Text put into lent memory: bytes, numbers, right-aligned columns, the line of a refusal.
//
//     Page           lent memory, and where its next byte is put:
//       new          memory in which nothing is put yet
//       byte, text   puts a byte; the bytes of a text
//       number       puts a number of at most four digits, and the byte after it
//       column       puts a number right-aligned in columns
//     refused        the line `refused`, a space and a number
//
// Conventions. A text is put where the page stands, and the page then stands after it; the bytes before and after the text stay
// as they were. The line of a refusal stands at the start of the memory, and its length is answered.
// All ask for the room of what they put, `column` that the number fits its columns.
//
// The source is document 01, "Listing": "Decimal, no leading zeros", and "`refused`, a space and the number"; and
// document 02, 1/14: "right-aligned in 5 columns". The definitions that the contracts cite are those of the crate
// `text`, and `Puts` and `Wrote` in specs/Writing.antt. proofs/Writes.antt has the laws for those who put one text after
// another, proofs/Shown.antt those for what is printed for a map: its text, or the line of opening's refusal.
#![tactic(auto)]

mod page;
mod refusal;

pub use page::Page;
pub use refusal::refused;
