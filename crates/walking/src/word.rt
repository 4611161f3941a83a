// Positions of the word: family, partner, step, point and area, and the first one of a point or an area.
ghost use Rattle.std.specs.Prelude.{◌≡◌, ◌<◌, ◌≤◌};
ghost use Rattle.words.specs.Brackets.{mate, next, previous, step, back, number, first};
ghost use Rattle.words.specs.declared.family.Family.TheVariants.{Round as round, Square as square};
ghost use Rattle.words.specs.Word.{seen, mate_in};
ghost use Rattle.drawing.specs.Drawing.{most_ends};
ghost use Rattle.format.specs.Bytes.{size_in, bits_a, word_in};
ghost use Rattle.format.specs.Calls.{family_of_kind};
ghost use Rattle.opening.specs.Cells.{kind_of, number_of_cell};
ghost use Rattle.walking.specs.Positions.{Position, Numbered};

use answers::{Area, Point};
use layout::{bits_a, bits_b, family_bit, part_a, part_b};
use opening::Cell;
use words::Family;

// A position is a number beside its map, and no struct of both: the contracts get longer, as each answer has to say that its map is
// the same, and a place checked into such a struct makes the six single calls up to 5 % slower, as measured in instructions.

// The family of the bracket at position p.
#[tactic(auto, using(crate::proofs::Walks::family_round, crate::proofs::Walks::family_square))]
pub fn family_at(map: &[u8], p: usize) -> Family
    ensures { result ≡ ((word_in map.now).letter p).family }
{
    if bits::bit(part_a(map), p) == 1 {
        Family::Round
    } else {
        Family::Square
    }
}

// The partner of position p, in its own family.
#[tactic(auto, using(crate::proofs::Walks::cross_is))]
pub fn own_mate_at(map: &[u8], p: usize) -> usize
    requires { Position map.now p }
    ensures { (result ≡ mate_in (word_in map.now) p) × Position map.now result }
{
    mate_at(map, family_at(map, p), p)
}

// The partner of position p in a family; p itself where p is of the other family.
#[tactic(auto, using(crate::proofs::Walks::mate_own, crate::proofs::Walks::mate_own_at, crate::proofs::Walks::mate_other))]
pub fn mate_at(map: &[u8], family: Family, p: usize) -> usize
    requires { Position map.now p }
    ensures value { result ≡ mate (seen family (word_in map.now)) (bits_a (size_in map.now)) p }
    ensures position { Position map.now result }
{
    let a = part_a(map);
    let v = family_bit(family);
    if bits::bit(a, p) == v {
        let i = bits::rank(a, v, p);
        let j = matching::partner(part_b(map, family), bits_b(map, family), i);
        bits::select(a, v, bits_a(map), j)
    } else {
        p
    }
}

// The next position about the point (area) of p: after the partner, and 0 after the last.
#[tactic(auto, using(crate::proofs::Walks::step_is, crate::proofs::Walks::position, crate::proofs::Decoded::places_most))]
pub fn step_at(map: &[u8], family: Family, p: usize) -> usize
    requires { Position map.now p }
    ensures value { result ≡ step (seen family (word_in map.now)) (bits_a (size_in map.now)) p }
    ensures position { Position map.now result }
{
    after(bits_a(map), mate_at(map, family, p))
}

// The same from q, the partner of p in its own family, wherever that was found.
#[tactic(auto, using(crate::proofs::Walks::step_is, crate::proofs::Walks::position, crate::proofs::Decoded::places_most))]
pub fn step_past(map: &[u8], family: Family, p: usize, q: usize) -> usize
    requires { Position map.now p × Position map.now q × (q ≡ mate_in (word_in map.now) p) }
    ensures value { result ≡ step (seen family (word_in map.now)) (bits_a (size_in map.now)) p }
    ensures position { Position map.now result }
{
    after(bits_a(map), mate_of(map, family, p, q))
}

// The partner of p in a family, from q, its partner in its own: `other` is 1 where p is of the other family. A sum and no jump:
// which of the two it is can't be foreseen.
#[tactic(auto, using(crate::proofs::Walks::sum_mate))]
fn mate_of(map: &[u8], family: Family, p: usize, q: usize) -> usize
    requires { Position map.now p × Position map.now q × (q ≡ mate_in (word_in map.now) p) }
    ensures value { result ≡ mate (seen family (word_in map.now)) (bits_a (size_in map.now)) p }
    ensures position { Position map.now result }
{
    let other = (bits::bit(part_a(map), p) + family_bit(family)) % 2;
    (1 - other) * q + other * p
}

// The position after q, of n; 0 after the last.
#[tactic(auto, using(crate::proofs::Walks::after_next, crate::proofs::Walks::after_last))]
pub fn after(n: usize, q: usize) -> usize
    requires { (q < n) × (n ≤ most_ends) }
    ensures { (result ≡ next n q) × (result < n) }
{
    let r = q + 1;
    if r < n { r } else { 0 }
}

// The position before p about its point (area): the partner of the position before.
#[tactic(auto, using(crate::proofs::Walks::back_is))]
pub fn back_at(map: &[u8], family: Family, p: usize) -> usize
    requires { Position map.now p }
    ensures value { result ≡ back (seen family (word_in map.now)) (bits_a (size_in map.now)) p }
    ensures position { Position map.now result }
{
    mate_at(map, family, before(bits_a(map), p))
}

// The position before p, of n; the last before 0.
#[tactic(auto, using(crate::proofs::Walks::before_first, crate::proofs::Walks::before_other))]
pub fn before(n: usize, p: usize) -> usize
    requires { p < n }
    ensures { (result ≡ previous n p) × (result < n) }
{
    if p == 0 { n - 1 } else { p - 1 }
}

// The point that position p is about. It and an area are of two types; what both are is `number_at`.
pub fn point_of(map: &[u8], p: usize) -> Point
    requires { Position map.now p }
    ensures { result.0 ≡ number (seen round (word_in map.now)) p }
{
    Point(number_at(map, Family::Round, p))
}

// The area that position p is on the walk of.
pub fn area_of(map: &[u8], p: usize) -> Area
    requires { Position map.now p }
    ensures { result.0 ≡ number (seen square (word_in map.now)) p }
{
    Area(number_at(map, Family::Square, p))
}

// The first position of a point (area): 0, or the one after the bracket that reaches it.
#[tactic(auto, using(crate::proofs::Walks::first_one, crate::proofs::Walks::first_more, crate::proofs::Walks::first_at))]
pub fn first_at(map: &[u8], cell: Cell) -> usize
    requires { Numbered map.now cell × (0 < bits_a (size_in map.now)) }
    ensures value { result ≡ first (seen (family_of_kind (kind_of cell)) (word_in map.now)) (bits_a (size_in map.now)) (number_of_cell cell) }
    ensures position { Position map.now result }
{
    let k = cell.number();
    if k == 1 {
        return 0;
    }
    let family = cell.family();
    let j = bits::select(part_b(map, family), 0, bits_b(map, family), k - 2);
    bits::select(part_a(map), family_bit(family), bits_a(map), j) + 1
}

// The number of the point (area) of p.
#[tactic(auto, using(crate::proofs::Walks::number_is_rank))]
pub fn number_at(map: &[u8], family: Family, p: usize) -> usize
    requires { Position map.now p }
    ensures { result ≡ number (seen family (word_in map.now)) p }
{
    let b = part_b(map, family);
    let j = bits::rank(part_a(map), family_bit(family), p);
    bits::rank(b, 0, matching::enclosing(b, j)) + 1
}
