// Check 7: the first two unmarked borders that alternate in the tour. The working list is lent as one (document 01): `places` says
// where its thirds begin.
ghost use Rattle.std.specs.Prelude.{◌≡◌, ◌+◌, ◌*◌, ◌<◌, length, get_or};
ghost use Rattle.drawing.specs.Checks.{crossing_in};
ghost use Rattle.lending.specs.Lists.{Outside, Zeroed};
ghost use Rattle.touring.specs.Working.{Charted, border_in};
ghost use Rattle.crossing.specs.Finding.{found_means, chart_tour, Stands, Above};

use touring::border_in;

// The first pair of unmarked borders that alternate in the tour, the smaller first; none where no two do. The last third of the list is left 0.
pub fn find_crossing(marks: &[u8], work: &mut [u16]) -> Option<(usize, usize)>
    requires { Charted (2 * length marks.now) work.old }
    ensures result_value { found_means result ≡ crossing_in (chart_tour marks.now work.old) }
    ensures zeroed { Zeroed (2 * (2 * length marks.now)) (3 * (2 * length marks.now))
        work.old work.new }
{
    let found = follow(marks, work);
    let places = 2 * marks.len();
    lending::clear(&mut work[2 * places..3 * places], places);
    found
}

// Follows the tour. The last third is a stack: the first places of the unmarked borders that are open. At the first border
// that closes and is not on top, that border is the a of the first pair a, b, a, b, and the one directly above it is the b:
// all those above it are open, and it was met first of them.
fn follow(marks: &[u8], work: &mut [u16]) -> Option<(usize, usize)>
    requires { Charted (2 * length marks.now) work.old }
    ensures result_value { found_means result ≡ crossing_in (chart_tour marks.now work.old) }
    ensures outside { Outside (2 * (2 * length marks.now)) (3 * (2 * length marks.now))
        work.old work.new }
{
    let places = 2 * marks.len();
    let mut k: usize = 0;
    for p in 0..places {
        let e = border_in(work, p);
        if marks[e] != 1 {
            if work[places + p] == 0 {
                work[2 * places + k] = p as u16;
                k += 1;
            } else {
                if opened(work, places, k - 1) != e {
                    let b = above(work, places, k, e);
                    return Some((e.min(b), e.max(b)));
                }
                k -= 1;
            }
        }
    }
    None
}

// The border that stands at i on the stack.
fn opened(work: &[u16], places: usize, i: usize) -> usize
    requires { (2 * places + i < length work.now)
        × (get_or work.now (2 * places + i) 0 < length work.now) }
    ensures { result ≡ border_in work.now (get_or work.now (2 * places + i) 0) }
{
    border_in(work, usize::from(work[2 * places + i]))
}

// The border directly above border e on the stack of k. That e stands there is known: an iterator's search would answer an Option.
fn above(work: &[u16], places: usize, k: usize, e: usize) -> usize
    requires { Stands places k e work.now }
    ensures { Above places k e work.now result }
{
    let mut i = 0;
    while opened(work, places, i) != e {
        i += 1;
    }
    opened(work, places, i + 1)
}
