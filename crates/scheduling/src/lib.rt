// The schedule of a map's areas as text, or the line of a refusal.
//
//     schedule   the schedule of a map, or the line of the check that declines its bytes
//     refused    the line `refused`, a space and a number
//
// Conventions. The text stands at the start of the memory lent, and its length is answered; the bytes after it stay as
// they were. The memory has the room of the longest schedule. No function asks anything of its caller.
//
// One loop over the areas writes the lines and adds up the sides; what it prints of each area the crate `tallying` has
// found in one pass, and looks up by the area's number. So the time is in proportion to the map and the text, whatever the areas are.
//
// The source is document 02, 1/14. The definition that the contract cites is `schedule_of` of the crate `text`.
// The crate `scheduling_c` gives a C host what `schedule` writes.
#![tactic(auto)]

mod pages;
mod print;
mod rows;

pub use print::{ROOM, refused, schedule};
