// Where crossing the sides of an area leads: the areas across them as a list, one for each side, in walk order.
//
//     land    fills a list with the areas across the sides of an area
//
// Conventions. Areas count from 1; positions count from 0: position p is place p + 1. The list is lent by whoever calls, and
// the answer is how many entries of it are filled. land asks that the bytes open and have such an area: whoever calls has checked.
//
// Few sides are crossed by walking through the bytes. For more, one pass over the map finds what lies across every place, and
// those of the area are gathered in rising order: its walk meets them in that order (`walk_gather` of `words`). The source is
// document 02, 3/14 and 4/14; specs/Landed.antt says what the lists hold, by the definition of the crate `format`.
#![tactic(auto)]

mod across;

pub use across::land;
