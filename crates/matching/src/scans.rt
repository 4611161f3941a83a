// What a scan of brackets leaves.

// How many brackets are not passed, and how many that are passed wait for a partner. Two numbers and no enum: `closing` and
// `enclosing` reckon with `left` as it is, 0 where all are passed.
#[derive(Clone, Copy, Debug, PartialEq, Eq)]
pub struct Scan {
    pub left: usize,
    pub depth: usize,
}
