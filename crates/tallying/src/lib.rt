// The sides and the first place of every area of a map, for calls that ask about all of them.
//
//     tally      fills two lists of a map, each with an entry for every area
//     sides_of   how many sides an area has, by such a list
//     first_of   its first place
//
// Conventions. Entry k - 1 of a list is that of area k, which only the functions here need to know: whoever calls looks an area up
// by its number. The lists stand on the stack of whoever calls, with room for the most areas, 2,049, and are lent with every entry
// 0; the entries beyond the last area stay so. tally is given bytes that open; the lookups ask that there is an entry: whoever calls
// has checked.
//
// One loop over the areas of all places, which the crate `surveying` finds in one pass, counts the sides of all areas at once. It
// goes from the last place down, so that the place noted last for an area is its first. The source is document 01, "Moves".
// specs/Tallied.antt says what the lists hold, by the definitions with which the calls `sides` and `area_first` answer;
// proofs/Lookups.antt has the laws for those who look up.
#![tactic(auto)]

mod counts;
mod entries;

pub use counts::{MOST_AREAS, tally};
pub use entries::{first_of, sides_of};
