// A drawing is packed, and a session is run on the bytes just written: the chain from a drawing to the answers of its map.
//
//     rehearse   packs a lent drawing, then runs a lent list of calls on its map
//
// Conventions. The drawing is lent as packing takes it, the calls as the crate `sessions` takes them. The session's map
// is the bytes that packing wrote, no more and no fewer. Where packing declines, no call is run, and the lists of
// statuses and answers stay as they were. The session can still be declined by 2 or 255: then the map is written
// and those two lists stay. Nothing is asked of the caller.
//
// The contract speaks of the drawing and its book alone (document 01, "The drawing's book"): each status, each answer
// and the place left are those of the book. The crate `demands`, specs/Rehearsal, says what that is, and what the memory lent holds at
// the end. That the session on the map is the book's is demand 3, of the crate `demands`.
#![tactic(auto)]

mod chain;

pub use chain::rehearse;
