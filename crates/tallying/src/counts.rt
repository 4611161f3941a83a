// Counting the sides of all areas in one loop over the places of a map.
ghost use Rattle.std.specs.Prelude.{◌≡◌, ◌<◌, ◌≤◌, length};
ghost use Rattle.answers.specs.Lent.{laid};
ghost use Rattle.format.specs.Open.{open_refusal};
ghost use Rattle.tallying.specs.Tallied.{sides_in, firsts_in, Blank, Tallied, entry_at, HasEntry, Noted};

use crate::entries::index_of;
use answers::{Area, Place};
use layout::bits_a;
use surveying::{Survey, survey};

// The most areas of a map: 2,048 borders on one point.
pub const MOST_AREAS: usize = 2049;

// Fills the lists of a map: how many sides each area has, and its first place. Two lists, not one of pairs: the contract of `tally`,
// which docs/AUDIT.md cites, says of each what it holds after.
pub fn tally(map: &[u8], sides: &mut [u16; MOST_AREAS], firsts: &mut [u16; MOST_AREAS])
    requires { (open_refusal map.now ≡ 0) × Blank sides.old × Blank firsts.old }
    ensures sides_after { sides.new ≡ laid (sides_in map.now) sides.old }
    ensures firsts_after { firsts.new ≡ laid (firsts_in map.now) firsts.old }
    ensures tallied { Tallied map.now sides.new firsts.new }
{
    // Three lists and no `Lists`: only that of the areas is read, and the compiler drops the other two, which it keeps and clears in a
    // `Lists`.
    let mut mates = [0u16; 4096];
    let mut areas = [0u16; 4096];
    let mut points = [0u16; 4096];
    survey(map, &mut mates, &mut areas, &mut points);
    let survey = Survey {
        map,
        mates: &mates,
        areas: &areas,
        points: &points,
    };
    count_sides(&survey, sides, firsts);
}

// Each place is a side of its area. They are met from the last down, so that the place stored last for an area is its first: nothing
// is chosen, and there is no jump, which the areas of a map would make slow. The list is indexed outright: a survey's lookup asks
// first whether there is an entry.
fn count_sides(survey: &Survey, sides: &mut [u16], firsts: &mut [u16])
    requires whole { 4096 ≤ length survey.now.areas.now }
    requires blank { Blank sides.old × (2049 ≤ length sides.old) × Blank firsts.old × (2049 ≤ length firsts.old) }
    ensures sides_after { sides.new ≡ laid (sides_in survey.now.map.now) sides.old }
    ensures firsts_after { firsts.new ≡ laid (firsts_in survey.now.map.now) firsts.old }
    ensures tallied { Tallied survey.now.map.now sides.new firsts.new }
{
    let areas = survey.areas;
    for p in (0..bits_a(survey.map)).rev() {
        let area = Area(usize::from(areas[p]));
        note_side(sides, firsts, area, Place(p + 1));
    }
}

// Notes a side of an area: it is counted, and its place stands for the first, until a lower one is noted.
fn note_side(sides: &mut [u16], firsts: &mut [u16], area: Area, place: Place)
    requires { HasEntry sides.old area.0 × HasEntry firsts.old area.0 × (entry_at sides.old area.0 < 65535) × (place.0 < 65536) }
    ensures { Noted area.0 place.0 sides.old firsts.old sides.new firsts.new }
{
    let k = index_of(area);
    firsts[k] = place.0 as u16;
    sides[k] += 1;
}
