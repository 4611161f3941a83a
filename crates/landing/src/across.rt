// Filling a list with the areas across the sides of an area.
ghost use Rattle.std.specs.Prelude.{◌≡◌, ◌≤◌, length, IfSome};
ghost use Rattle.opening.specs.declared.cells.Cell.{Cell};
ghost use Rattle.walking.specs.Positions.{Numbered};
ghost use Rattle.landing.specs.Landed.{Landed};

use answers::Area;
use layout::bits_a;
use opening::{Cell, OpenMap};
use surveying::{Lists, Survey};
use walking::{first_at, number_at, own_mate_at, step_past};
use words::Family;

// Before a map is surveyed, sides are crossed by walking until so much is done: one for every so many places of the map,
const WALK: usize = 512;

// and so much more.
const LEAST: usize = 8;

// A side is one, and one more for every so many places from it to its mate, which walking has to pass. On the largest maps all that
// takes at most a fourth of the time of the survey, as measured on many in turn.
const PASSED: usize = 1024;

// The areas across the sides of an area.
pub fn land(map: &[u8], area: Area, list: &mut [u16]) -> usize
    requires { Numbered map.now (Cell.Area area) × (4096 ≤ length list.old) }
    ensures { Landed map.now area.0 result list.new }
{
    match few_across(map, area, list) {
        Some(few) => few,
        None => all_across(OpenMap { bytes: map }, area, list),
    }
}

// The areas across the sides of an area that has few, by walking through the bytes; None where it has more. The loop goes along a
// walk, which ends where it returns.
fn few_across(map: &[u8], area: Area, list: &mut [u16]) -> Option<usize>
    requires { Numbered map.now (Cell.Area area) × (16 ≤ length list.old) }
    ensures { IfSome result (λ c. Landed map.now area.0 c list.new) }
{
    let n = bits_a(map);
    if n == 0 {
        return Some(0);
    }
    let most = n / WALK + LEAST;
    let mut p = first_at(map, Cell::Area(area));
    let mut c = 0;
    let mut work = 0;
    while work < most {
        let q = own_mate_at(map, p);
        list[c] = number_at(map, Family::Square, q) as u16;
        c += 1;
        work += 1 + p.abs_diff(q) / PASSED;
        let r = step_past(map, Family::Square, p, q);
        if r <= p {
            return Some(c);
        }
        p = r;
    }
    None
}

// The areas across the sides of any area, gathered from all places.
fn all_across(map: OpenMap<'_>, area: Area, list: &mut [u16]) -> usize
    requires { 4096 ≤ length list.old }
    ensures { Landed map.entry.bytes.now area.0 result list.new }
{
    let mut lists = Lists::new();
    gather(&lists.survey(map), area.0, list)
}

// Of each place the area across, which the next one overwrites unless the place is of area k: a store and a sum, and no jump, which
// the places of an area would make slow. The area is read before the store: the lists lie as far apart as makes a processor take
// the one for the other. The lists are indexed outright: a survey's lookup asks first whether there is an entry.
fn gather(survey: &Survey, k: usize, list: &mut [u16]) -> usize
    requires { (4096 ≤ length survey.now.mates.now) × (4096 ≤ length survey.now.areas.now) × (4096 ≤ length list.old) }
    ensures { Landed survey.now.map.now k result list.new }
{
    let mates = survey.mates;
    let areas = survey.areas;
    let n = bits_a(survey.map);
    let mut c = 0;
    for p in 0..n {
        let q = usize::from(mates[p]);
        let own = usize::from(areas[p]);
        list[c] = areas[q];
        if own == k {
            c += 1;
        }
    }
    c
}
