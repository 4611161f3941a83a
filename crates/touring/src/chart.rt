// The chart of a tour: the end at each position, and which positions are second places of their borders. The working list is lent
// as one (document 01): `places` says where its thirds begin.
ghost use Rattle.std.specs.Prelude.{◌≡◌, List, ℕ, ◌*◌, ◌<◌, ◌≤◌, length};
ghost use Rattle.drawing.specs.Drawing.{is_marked, over, lent};
ghost use Rattle.drawing.specs.Checks.{LengthsFit, InRange};
ghost use Rattle.lending.specs.Lists.{Outside};
ghost use Rattle.checking.specs.Lent.{drawn};
ghost use Rattle.touring.specs.Working.{Tours, Clean, Noted};

use crate::work::border_in;
use checking::Lent;

// Puts the end at each position of the tour into the first 2m entries.
pub fn tour(drawing: &Lent, work: &mut [u16])
    requires { LengthsFit (drawn drawing.now)
        × InRange (drawn drawing.now)
        × (length drawing.now.turning.now ≤ length work.old) }
    ensures tours { Tours (drawn drawing.now) work.new }
    ensures outside { Outside 0 (length drawing.now.turning.now) work.old work.new }
{
    let mut h = drawing.start as u16;
    for p in 0..drawing.turning.len() {
        work[p] = h;
        h = drawing.turning[usize::from(crossed(drawing.marks, h))];
    }
}

// Says in the second of three thirds of the list which positions are second places of their borders, and flags in the last
// the borders met.
pub fn seconds(work: &mut [u16], places: usize)
    requires { Clean places work.old }
    ensures { Noted places work.old work.new }
{
    for p in 0..places {
        let e = border_in(work, p);
        work[places + p] = work[2 * places + e];
        work[2 * places + e] = 1;
    }
}

// The other end of h's border if that is marked, else h.
fn crossed(marks: &[u8], h: u16) -> u16
    requires { h < 2 * length marks.now }
    ensures { ((ts : List ℕ) (s : ℕ) → result ≡ over (is_marked (lent ts marks.now s)) h)
        × (result < 2 * length marks.now) }
{
    if marks[usize::from(h) / 2] == 1 {
        checking::other(h)
    } else {
        h
    }
}
