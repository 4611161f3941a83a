// The listing of a map as text, or the line of a refusal.
//
//     list      the listing of a map, or the line of the check that declines its bytes
//     refused   the line `refused`, a space and a number
//
// Conventions. The text stands at the start of the memory lent, and its length is answered; the bytes
// after it stay as they were. The memory has the room of the longest listing: a heading of 26 bytes
// and 4,096 lines of at most 22. No function asks anything of its caller.
//
// One pass over the map finds the mate, the point and the area of every place (the crate `surveying`);
// then one loop writes the lines, with the running count of the marked places. So the time is in
// proportion to the map.
//
// The source is document 01, "Listing", and document 02, 5/14. The definitions that the contracts cite
// are those of the crate `text`, whose specs/Running has the running count, and what is shown of it for every map
// listed (`running_rank`). The crate `listing_c` gives a C host what `list` writes.
#![tactic(auto)]

mod line;
mod lines;
mod print;

pub use print::{ROOM, list, refused};
