// From the text of a drawing to the listing of its map: what the program `places` prints.
//
//     places   the places of the map of the drawing that the text denotes, or the line of a refusal
//
// Conventions. What is printed stands at the start of the memory lent, and its length is answered;
// the bytes after it stay as they were. No function asks anything of its caller.
//
// The source is document 01, "Listing". The definition that the contract cites is `places_of` of the
// crate `text`. Packing is lent the working list of the longest drawing, 6 * 2,048 entries, and the
// bytes of the longest map.
#![tactic(auto)]

mod print;

pub use listing::ROOM;
pub use print::places;
