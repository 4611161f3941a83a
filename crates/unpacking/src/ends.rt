// The end at each position of the word, in one pass: borders are numbered as their first places come.
ghost use Rattle.std.specs.Prelude.{◌≡◌, ◌+◌, ◌<◌, ◌≤◌, ltb, length};
ghost use Rattle.count.specs.Below.{pick};
ghost use Rattle.surveying.specs.Surveyed.{Mates};
ghost use Rattle.unpacking.specs.Ended.{Ends};

use layout::bits_a;
use opening::OpenMap;

// Writes the end at each position.
pub fn write_ends(map: OpenMap<'_>, mates: &[u16], ends: &mut [u16])
    requires map_value { Mates map.bytes.now mates.now }
    requires in_bounds { (4096 ≤ length mates.now) × (4096 ≤ length ends.old) }
    ensures { Ends map.entry.bytes.now ends.new }
{
    let n = bits_a(map.bytes);
    let mut even = 0;
    for p in 0..n {
        let q = usize::from(mates[p]);
        ends[p] = end_by(p, q, even, usize::from(ends[q])) as u16;
        if p < q {
            even += 2;
        }
    }
}

// The end at position p, whose mate is q: a first place has the next even end, a second place the one after its mate's. A
// choice between two numbers and no branch: which of the two comes next can't be foreseen.
fn end_by(p: usize, q: usize, even: usize, first: usize) -> usize
    requires { first < 65536 }
    ensures { result ≡ pick (ltb p q) even (first + 1) }
{
    if p < q { even } else { first + 1 }
}
