// What some calls give of more than one part.
use crate::numbers::Place;
use crate::refusal::Refusal;

// m and n, which opening gives.
#[derive(Clone, Copy, Debug, PartialEq, Eq)]
pub struct Size {
    pub m: usize,
    pub n: usize,
}

// Where a turn leads, and whether it has gone round: every turn has both, so that the sign is no case (document 02, 8/14).
#[derive(Clone, Copy, Debug, PartialEq, Eq)]
pub struct Turn {
    pub place: Place,
    pub round: bool,
}

// What is rehearsed: the length of the map that packing wrote, and the place that the session on it leaves, or why it declines.
#[derive(Clone, Copy, Debug, PartialEq, Eq)]
pub struct Rehearsal {
    pub length: usize,
    pub left: Result<Place, Refusal>,
}
