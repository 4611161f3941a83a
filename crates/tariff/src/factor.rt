// An area's factor as its insurer has it, and the running sum of the factors across an area's sides.

// Its own; or a factor to be held between a floor and a ceiling, which follow it; or not known.
#[derive(Clone, Copy, Debug)]
pub enum Factor {
    Own(f64),
    Held(f64, f64, f64),
    Unknown,
}

// The sum of the factors added so far, and how many they are.
#[derive(Clone, Copy, Debug)]
pub struct Running {
    pub sum: f64,
    pub count: usize,
}
