// The search about a point for a border that joins it with another, in one loop in turning order.
ghost use Rattle.std.specs.Prelude.{◌≡◌};
ghost use Rattle.format.specs.Bytes.{size_in, bits_a};
ghost use Rattle.opening.specs.declared.cells.Cell.{Cell};
ghost use Rattle.walking.specs.Positions.{Numbered};
ghost use Rattle.surveying.specs.Surveyed.{Early};
ghost use Rattle.searching.specs.Joined.{joined_in, joined_from, Start};

use answers::Point;
use layout::bits_a;
use opening::{Cell, OpenMap};
use sizing::size_at;
use surveying::{Lists, Survey};
use walking::{first_at, step_past};
use words::Family;

// Places that are surveyed in the time of looking at one by walking, as measured on many maps in turn.
const WALK: usize = 64;

// Places that are looked at by walking in the time that the survey of a small map takes.
const LEAST: usize = 12;

// How many of many places are looked at before the map is surveyed.
const FIRST: usize = 1;

// Once round the point u, from its first place; an empty map has no place to start from. "It answers 0 if none does."
pub fn join_at(map: &[u8], u: Point, v: Point) -> usize
    requires { Numbered map.now (Cell.Point u) }
    ensures { result ≡ joined_in map.now u.0 v.0 }
{
    if bits_a(map) == 0 {
        return 0;
    }
    let about = Cell::Point(u);
    join_about(map, v, size_at(map, about), first_at(map, about))
}

// Few places are looked at by walking through the bytes. Of many, k, the first ones; where none of them lands at v, the map is
// surveyed, once for all of them. The answer does not depend on k.
fn join_about(map: &[u8], v: Point, k: usize, f: usize) -> usize
    requires { Start map.now f }
    ensures { result ≡ joined_from map.now v.0 f }
{
    let open = OpenMap { bytes: map };
    match join_from(&Survey::empty(open), v, walked(bits_a(map), k), f) {
        Some(early) => early,
        None => join_surveyed(open, v, f),
    }
}

// The same, looked up in lists of the whole map: no place is left out.
fn join_surveyed(map: OpenMap<'_>, v: Point, f: usize) -> usize
    requires { Start map.bytes.now f }
    ensures { result ≡ joined_from map.entry.bytes.now v.0 f }
{
    let mut lists = Lists::new();
    join_from(&lists.survey(map), v, bits_a(map.bytes), f).unwrap()
}

// How many of k places are looked at by walking, in a map of n places: all, where a survey would take longer.
fn walked(n: usize, k: usize) -> usize {
    if k < n / WALK + LEAST { n } else { FIRST }
}

// The first place about a point, in turning order from its first position f on, whose crossing lands at v; 0 where none does.
// Turning leads to higher positions until the point's last. Of more than `most` places the others are not looked at: where they
// may be needed, the answer is None. The loop is no `for`: document 01 wants it to yield its place by break.
fn join_from(survey: &Survey, v: Point, most: usize, f: usize) -> Option<usize>
    requires { Start survey.now.map.now f }
    ensures { Early (bits_a (size_in survey.now.map.now)) most (joined_from survey.now.map.now v.0 f) result }
{
    let to = v.0;
    let mut p = f;
    let mut left = most;
    let found = loop {
        if left == 0 {
            return None;
        }
        let q = survey.own_mate(p);
        let at = survey.point(q);
        if at.0 == to {
            break p + 1;
        }
        let r = step_past(survey.map, Family::Round, p, q);
        if r <= p {
            break 0;
        }
        p = r;
        left -= 1;
    };
    Some(found)
}
