// The lines of a listing, one for each place: place, kind, mate, node and area.
//
// One loop over the places writes them. The mates, the areas and the points of all places the crate `surveying` has found in one pass;
// where the next unread bit of B and of B* stands, the running count of the marked places says.
ghost use Rattle.std.specs.Prelude.{◌≡◌, [], ◌∷◌, ◌+◌, ◌*◌, ◌≤◌, length};
ghost use Rattle.drawing.specs.Drawing.{most_ends};
ghost use Rattle.format.specs.Bytes.{size_in, bits_a, word_in};
ghost use Rattle.text.specs.Running.{letter_from};
ghost use Rattle.printing.specs.Writing.{Puts};
ghost use Rattle.text.specs.Listing.{kind, place_lines};
ghost use Rattle.walking.specs.Positions.{Position};
ghost use Rattle.listing.specs.Lines.{Says};

use crate::line::{Line, put_line};
use answers::Place;
use bits::bit;
use layout::{bits_a, part_a, part_b};
use opening::OpenMap;
use printing::Page;
use surveying::{Lists, Survey};
use words::Family;

// Puts the lines of all places.
pub fn put_lines(map: OpenMap<'_>, page: &mut Page)
    requires { page.old.at + 22 * most_ends ≤ length page.old.out.now }
    ensures { Puts page.old (place_lines (word_in map.entry.bytes.now) 0 (bits_a (size_in map.entry.bytes.now))) page.new }
{
    let mut lists = Lists::new();
    put_surveyed(&lists.survey(map), page);
}

// The same, looked up in the lists of a map. `ones` is the running count: how many of the places before this one are marked.
#[tactic(auto, using(text::proofs::Running::counts_le, text::proofs::Running::kind_read, crate::proofs::Listed::lined_position, crate::proofs::Listed::lined_room, crate::proofs::Listed::lined_fits, crate::proofs::Listed::lined_end))]
fn put_surveyed(survey: &Survey, page: &mut Page)
    requires { page.old.at + 22 * most_ends ≤ length page.old.out.now }
    ensures { Puts page.old (place_lines (word_in survey.now.map.now) 0 (bits_a (size_in survey.now.map.now))) page.new }
{
    let a = part_a(survey.map);
    let b = part_b(survey.map, Family::Round);
    let c = part_b(survey.map, Family::Square);
    let mut ones = 0;
    for p in 0..bits_a(survey.map) {
        let marked = bit(a, p);
        let bracket = kind_of(marked, bit(b, ones), bit(c, p - ones));
        let line = line_at(survey, p, bracket);
        put_line(page, line);
        ones += marked;
    }
}

// "the four kinds are ( ) for B and [ ] for B*". A says which of the two, and the next unread bit of that string whether it closes. Bits are
// numbers, as `bits` answers them.
#[tactic(auto, using(crate::proofs::Letters::kind_round_closes, crate::proofs::Letters::kind_round_opens, crate::proofs::Letters::kind_square_closes, crate::proofs::Letters::kind_square_opens))]
fn kind_of(marked: usize, b: usize, c: usize) -> u8
    ensures { kind (letter_from marked b c) ≡ result ∷ [] }
{
    match (marked, b, c) {
        (1, 1, _) => b')',
        (1, _, _) => b'(',
        (_, _, 1) => b']',
        _ => b'[',
    }
}

// What the line of position p says, whose kind is given.
fn line_at(survey: &Survey, p: usize, bracket: u8) -> Line
    requires { Position survey.now.map.now p × (kind ((word_in survey.now.map.now).letter p) ≡ bracket ∷ []) }
    ensures { Says survey.now.map.now p result }
{
    let mate = survey.own_mate(p) + 1;
    let node = survey.point(p);
    let area = survey.area(p);
    Line {
        place: Place(p + 1),
        bracket,
        mate: Place(mate),
        node,
        area,
    }
}
