// The whole map in one pass: the mate, the area and the point of every place, for calls that ask about many.
//
//     survey                   fills three lists of a map, each with an entry for every place
//     Lists                    room for such lists; its survey fills them and gives the Survey of a map
//     Survey                   a map with its lists, or with empty ones:
//       own_mate               the partner of a position, in its own family
//       step, back             the next position about the same point, the same area; the one before
//       point, area            its point, its area
//
// Conventions. Positions count from 0: position p is place p + 1. Entry p of `mates` is the position that crossing p
// leads to; entry p of `areas` and of `points` is the number of its area and of its point, from 1. The lists stand on
// the stack of whoever calls, with room for the largest map; the entries beyond the last position stay as they were.
// A Survey looks up in its lists. For a position that a list has no entry for it walks through the bytes as the crate
// `walking` does, so that empty lists serve where few places are asked about. The bytes of a Survey open: it is
// made of an OpenMap, or of bytes and lists of which that is known; whoever is given one need not ask. survey is lent bytes, and
// asks that they open.
//
// The pass is that of the crate `pairing`, which reads A, B and B* once, forwards, and knows no map. The source is document
// 01, "Tour and packed map" and "Moves": the area of a place is that of the innermost [ open just before it, its point that of
// the innermost (. specs/Surveyed.antt says what the lists hold, by the definitions of the crate `words`, of the word that
// `format` finds in the bytes; proofs/Laws.antt has the laws for those who count in the lists.
#![tactic(auto)]

mod lists;
mod moves;
mod pass;

pub use lists::Lists;
pub use moves::Survey;
pub use pass::survey;
