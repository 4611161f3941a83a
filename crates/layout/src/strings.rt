// The strings: "A (2m bits), B (2n-2) and B* (2(m-n+1)), each from a fresh byte".
//
// m and n are two bytes each, so a string has at most 131,072 bits, whatever the header says.
ghost use Rattle.std.specs.Prelude.{◌≡◌, ◌+◌, ◌<◌, ◌≤◌};
ghost use Rattle.bits.specs.Letters.{family_bit};
ghost use Rattle.format.specs.Bytes.{header, size_in, bits_a, bits_b, start_b, map_length, part, part_a, part_b};

use crate::header::{borders, points};
use bits::bytes_for;
use format::HEADER;
use words::Family;

// The bytes of A.
#[tactic(auto, using(crate::proofs::Offsets::past_header, crate::proofs::Offsets::a_is))]
pub fn part_a(map: &[u8]) -> &[u8]
    ensures { result.now ≡ part_a map.now }
{
    between(map, HEADER, start_b(map, Family::Round))
}

// The bytes of B or B*.
#[tactic(auto, using(crate::proofs::Offsets::b_is))]
pub fn part_b(map: &[u8], family: Family) -> &[u8]
    ensures { result.now ≡ part_b family map.now }
{
    let a = start_b(map, family);
    between(map, a, a + bytes_for(bits_b(map, family)))
}

// How many bits A has.
pub fn bits_a(map: &[u8]) -> usize
    ensures { (result ≡ bits_a (size_in map.now)) × (result ≤ 131072) }
{
    2 * borders(map)
}

// How many bits B or B* has.
pub fn bits_b(map: &[u8], family: Family) -> usize
    ensures { (result ≡ bits_b family (size_in map.now)) × (result ≤ 131072) }
{
    match family {
        Family::Round => (2 * points(map)).saturating_sub(2),
        Family::Square => 2 * (borders(map) + 1).saturating_sub(points(map)),
    }
}

// The length of the whole map, as the header has it.
#[tactic(auto, unfolding(format::specs::Bytes::map_length))]
pub fn map_length(map: &[u8]) -> usize
    ensures { result ≡ map_length (size_in map.now) }
{
    start_b(map, Family::Square) + bytes_for(bits_b(map, Family::Square))
}

// "A: bit i is 1 if place i is of a marked border"
pub fn family_bit(family: Family) -> usize
    ensures { (result ≡ family_bit family) × (result < 2) }
{
    match family {
        Family::Round => 1,
        Family::Square => 0,
    }
}

// Where B or B* begins.
#[tactic(auto, unfolding(format::specs::Bytes::start_b))]
pub fn start_b(map: &[u8], family: Family) -> usize
    ensures { (result ≡ start_b family (size_in map.now)) × (result ≤ header + 32768) }
{
    let first = HEADER + bytes_for(bits_a(map));
    match family {
        Family::Round => first,
        Family::Square => first + bytes_for(bits_b(map, Family::Round)),
    }
}

// The bytes from a up to e, those that there are.
fn between(map: &[u8], a: usize, e: usize) -> &[u8]
    requires { a ≤ e }
    ensures { result.now ≡ part map.now a e }
{
    &map[a.min(map.len())..e.min(map.len())]
}
