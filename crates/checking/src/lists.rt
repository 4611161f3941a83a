// A drawing as it is lent, and what one pass over each list tells: lengths, ranges, marks.
ghost use Rattle.std.specs.Prelude.{◌≡◌, List, ℕ, ◌≤◌, ◌<◌, max, length};
ghost use Rattle.count.specs.Below.{Decides};
ghost use Rattle.drawing.specs.Checks.{LengthsFit, lengths_fit, in_range, mark_count};
ghost use Rattle.drawing.specs.Drawing.{lent};
ghost use Rattle.checking.specs.Lent.{drawn, Ranged, Binary};

use format::MOST_ENDS;

// A drawing, as it is lent.
#[derive(Clone, Copy)]
pub struct Lent<'a> {
    pub turning: &'a [u16],
    pub marks: &'a [u8],
    pub start: usize,
}

impl Lent<'_> {
    // 3: entries and start are below 2m, the start 0 for m = 0, and marks are 0 or 1.
    pub fn in_range(&self) -> bool
        requires { LengthsFit (drawn self.now) }
        ensures { result ≡ in_range (drawn self.now) }
    {
        if self.turning.len().max(1) <= self.start {
            return false;
        }
        entries_fit(self.turning) && marks_fit(self.marks)
    }
}

// 1: the turning list is twice as long as the marks, and at most 4,096 long.
pub fn lengths_fit(turning: &[u16], marks: &[u8]) -> bool
    ensures { (s : ℕ) → result ≡ lengths_fit (lent turning.now marks.now s) }
{
    let ends = turning.len();
    if MOST_ENDS < ends {
        return false;
    }
    ends == 2 * marks.len()
}

// 3, of the entries alone: each is below the list's length.
pub fn entries_fit(turning: &[u16]) -> bool
    ensures { Decides result (Ranged turning.now) }
{
    turning.iter().all(|&h| usize::from(h) < turning.len())
}

// How many borders are marked.
#[tactic(auto, using(crate::proofs::Scans::marked_start, crate::proofs::Scans::marked_end))]
pub fn count_marks(marks: &[u8]) -> usize
    ensures by_index { (ts : List ℕ) (s : ℕ) → result ≡ mark_count (lent ts marks.now s) }
    ensures upper_bound { result ≤ length marks.now }
{
    // A loop and not `filter` and `count`, which test each mark with a jump: with them packing took 5 per cent more instructions.
    let mut marked: usize = 0;
    for &m in marks {
        if m == 1 {
            marked += 1;
        }
    }
    marked
}

// Whether every mark is 0 or 1.
fn marks_fit(marks: &[u8]) -> bool
    ensures { Decides result (Binary marks.now) }
{
    marks.iter().all(|&m| m <= 1)
}
