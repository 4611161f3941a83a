// One call of a session, on bytes that open.
//
//     Call    one of the six calls; `Call::try_from` reads its code
//     tell    what a call gives at a place: what it finds there, or the refusal of a number that is no place
//     Found   a place, where a turn leads and whether it has gone round, a point or an area:
//       place_after   the place after it
//       entry         the number that stands for it in a list of answers
//
// Conventions. The place is any number. It is looked up in lists of the map, as a Survey of the crate `surveying` has them; where they
// are empty, by walking through the bytes. tell asks that the bytes open and the lists are those of the map (`Surveyed`); an entry is
// asked for where the number leaves bit 15 free, as it does in what tell finds. What tell finds is of the sort that the call asks for.
//
// The source is document 01, "The drawing's book" and "Moves". The definitions that the contract cites are those of the crate
// `format`, specs/Calls and specs/Sessions, and specs/Codes.antt and specs/Told.antt.
#![tactic(auto)]

mod calls;
mod codes;

pub use calls::{Found, tell};
pub use codes::Call;
