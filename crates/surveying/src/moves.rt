// Moves and numbers, looked up in the lists of a map. What a list has no entry for is found by walking through the bytes: few
// questions are cheaper that way, and an empty list serves them.
ghost use Rattle.std.specs.Prelude.{◌≡◌, length};
ghost use Rattle.words.specs.Brackets.{mate, step, back, number};
ghost use Rattle.words.specs.declared.family.Family.TheVariants.{Round as round, Square as square};
ghost use Rattle.words.specs.Word.{seen, mate_in};
ghost use Rattle.format.specs.Bytes.{size_in, bits_a, word_in};
ghost use Rattle.walking.specs.Positions.{Position};
ghost use Rattle.surveying.specs.Surveyed.{Numbers, Surveyed};

use answers::{Area, Point};
use layout::{bits_a, family_bit, part_a};
use opening::OpenMap;
use walking::{after, before, mate_at, number_at, own_mate_at};
use words::Family;

// A map that opens and its lists: what they have for a place is its mate, its area and its point.
// A position is asked for as a number: a struct of it and a map would have to say that the map is the survey's.
#[derive(Clone, Copy)]
pub struct Survey<'a> {
    pub map: &'a [u8],
    pub mates: &'a [u16],
    pub areas: &'a [u16],
    pub points: &'a [u16],
    pub ghost holds: { Surveyed map.now mates.now areas.now points.now },
}

impl<'a> Survey<'a> {
    // Empty lists: whatever is asked is found by walking.
    pub fn empty(map: OpenMap<'a>) -> Survey<'a>
        ensures of_map { result.map.now ≡ map.entry.bytes.now }
        ensures none { (length result.mates.now ≡ 0) × (length result.areas.now ≡ 0) × (length result.points.now ≡ 0) }
    {
        Survey {
            map: map.bytes,
            mates: &[],
            areas: &[],
            points: &[],
        }
    }

    // The partner of position p, in its own family.
    pub fn own_mate(&self, p: usize) -> usize
        requires { Position self.now.map.now p }
        ensures { (result ≡ mate_in (word_in self.now.map.now) p) × Position self.now.map.now result }
    {
        if p < self.mates.len() {
            usize::from(self.mates[p])
        } else {
            own_mate_at(self.map, p)
        }
    }

    // The partner of position p in a family; p itself where p is of the other family.
    fn mate(&self, family: Family, p: usize) -> usize
        requires { Position self.now.map.now p }
        ensures value { result ≡ mate (seen family (word_in self.now.map.now)) (bits_a (size_in self.now.map.now)) p }
        ensures position { Position self.now.map.now result }
    {
        if self.mates.len() <= p {
            return mate_at(self.map, family, p);
        }
        if bits::bit(part_a(self.map), p) == family_bit(family) {
            return usize::from(self.mates[p]);
        }
        p
    }

    // The next position about the point (area) of p: after the partner, and 0 after the last.
    pub fn step(&self, family: Family, p: usize) -> usize
        requires { Position self.now.map.now p }
        ensures value { result ≡ step (seen family (word_in self.now.map.now)) (bits_a (size_in self.now.map.now)) p }
        ensures position { Position self.now.map.now result }
    {
        after(bits_a(self.map), self.mate(family, p))
    }

    // The position before p about its point (area): the partner of the position before.
    pub fn back(&self, family: Family, p: usize) -> usize
        requires { Position self.now.map.now p }
        ensures value { result ≡ back (seen family (word_in self.now.map.now)) (bits_a (size_in self.now.map.now)) p }
        ensures position { Position self.now.map.now result }
    {
        self.mate(family, before(bits_a(self.map), p))
    }

    // The point that position p is about. It and an area are of two types; what both are is `number_in`.
    pub fn point(&self, p: usize) -> Point
        requires { Position self.now.map.now p }
        ensures { result.0 ≡ number (seen round (word_in self.now.map.now)) p }
    {
        Point(number_in(self.map, self.points, Family::Round, p))
    }

    // The area that position p is on the walk of.
    pub fn area(&self, p: usize) -> Area
        requires { Position self.now.map.now p }
        ensures { result.0 ≡ number (seen square (word_in self.now.map.now)) p }
    {
        Area(number_in(self.map, self.areas, Family::Square, p))
    }
}

// The number of the point (area) of p.
fn number_in(map: &[u8], numbers: &[u16], family: Family, p: usize) -> usize
    requires { Position map.now p × Numbers family map.now numbers.now }
    ensures { result ≡ number (seen family (word_in map.now)) p }
{
    if p < numbers.len() {
        usize::from(numbers[p])
    } else {
        number_at(map, family, p)
    }
}
