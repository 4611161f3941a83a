// The count: over all letters, over a run at once, and letter by letter.
ghost use Rattle.std.specs.Prelude.{◌≡◌, ◌-◌, ◌≤◌};
ghost use Rattle.bits.specs.Strings.{is_bit, among};
ghost use Rattle.sizing.specs.Runs.{flat, run, Ready, Within, Stands};

use bits::{WIDEST, count_in, field};
use std::ops::ControlFlow;

// Where a count stands that goes on: how many more brackets are open than at its start, and how many letters stood where none
// more was.
#[derive(Clone, Copy, Debug, PartialEq, Eq)]
pub struct Counted {
    pub depth: usize,
    pub found: usize,
}

// The strings that a count reads: the letters, and the brackets of the family with the bit v.
#[derive(Clone, Copy)]
pub struct Strings<'a> {
    pub a: &'a [u8],
    pub b: &'a [u8],
    pub v: usize,
}

impl Strings<'_> {
    // How many of the letters from p to n stand at depth 0, up to the closing at depth 0. The family's
    // next bracket has the index j in its string.
    pub fn count(&self, n: usize, mut p: usize, mut j: usize) -> usize
        requires { Within self.now.v n p j }
        ensures { result ≡ (run (is_bit self.now.v self.now.a.now) (is_bit 0 self.now.b.now) (n - p) p j 0 0).found }
    {
        let mut at = Counted { depth: 0, found: 0 };
        // Not the steps of a range: p goes from run to run, and the last run ends at n.
        while p < n {
            let e = (p + WIDEST).min(n);
            let k = count_in(self.a, self.v, p, e - p);
            match self.pass(e, p, j, k, at) {
                ControlFlow::Continue(next) => at = next,
                ControlFlow::Break(found) => return found,
            }
            j += k;
            p = e;
        }
        at.found
    }

    // The count over the letters from p to e, of which k are of the family. Where none is, or too few to
    // close all that is open, they are passed at once. A closing at depth 0 ends it, with what was found.
    fn pass(
        &self,
        e: usize,
        p: usize,
        j: usize,
        k: usize,
        at: Counted,
    ) -> ControlFlow<usize, Counted>
        requires { Ready self.now.v e p j at.depth at.found × (k ≡ among self.now.v self.now.a.now p (e - p)) × (k ≤ e - p) }
        ensures { Stands result (run (is_bit self.now.v self.now.a.now) (is_bit 0 self.now.b.now) (e - p) p j at.depth at.found) }
    {
        if k == 0 {
            return ControlFlow::Continue(Counted {
                found: at.found + flat(at.depth, e - p),
                ..at
            });
        }
        if k < at.depth {
            return ControlFlow::Continue(Counted {
                depth: matching::ahead(self.b, j + k, j, at.depth).depth,
                ..at
            });
        }
        self.letters(e, p, j, at)
    }

    // The same, letter by letter.
    fn letters(&self, e: usize, p: usize, j: usize, at: Counted) -> ControlFlow<usize, Counted>
        requires { Ready self.now.v e p j at.depth at.found }
        ensures { Stands result (run (is_bit self.now.v self.now.a.now) (is_bit 0 self.now.b.now) (e - p) p j at.depth at.found) }
    {
        let mut x = field(self.a, p, e - p);
        let mut y = field(self.b, j, WIDEST);
        let mut depth = at.depth;
        let mut found = at.found;
        for _q in p..e {
            found += flat(depth, 1);
            if x % 2 == self.v {
                let closing = y % 2;
                if depth < closing {
                    return ControlFlow::Break(found);
                }
                depth = depth + 1 - 2 * closing;
                y /= 2;
            }
            x /= 2;
        }
        ControlFlow::Continue(Counted { depth, found })
    }
}

// w at depth 0, else 0.
#[tactic(auto, using(crate::proofs::Runs::flat_yes, crate::proofs::Runs::flat_no))]
fn flat(depth: usize, w: usize) -> usize
    ensures { (result ≡ flat depth w) × (result ≤ w) }
{
    if depth == 0 { w } else { 0 }
}
