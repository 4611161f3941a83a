// The numbers that calls are given and answer. "A place never serves as a point or an area number."

#[derive(Clone, Copy, Debug, PartialEq, Eq)]
pub struct Place(pub usize);

#[derive(Clone, Copy, Debug, PartialEq, Eq)]
pub struct Point(pub usize);

#[derive(Clone, Copy, Debug, PartialEq, Eq)]
pub struct Area(pub usize);
