// Opening: checks 8, 20 and 9 to 12, each in one pass over its strings.
ghost use Rattle.std.specs.Prelude.{◌≡◌, IfOk};
ghost use Rattle.answers.specs.Answer.{answer};
ghost use Rattle.answers.specs.Means.{means, checks_mean, opened_means};
ghost use Rattle.words.specs.Brackets.{balanced};
ghost use Rattle.bits.specs.Strings.{brackets, unused_zero};
ghost use Rattle.format.specs.Bytes.{size_in, bits_a, bits_b, part_a, part_b};
ghost use Rattle.format.specs.Open.{size_fits, areas_fit, length_fits, unused_fits, ones_fit, brackets_fit, open_refusal, Opens, open_of};
ghost use Rattle.opening.specs.Checks.{open_check, header_check};

use crate::opened::OpenMap;
use answers::{Refusal, Size};
use format::{HEADER, MOST_BORDERS};
use layout::{areas, bits_a, bits_b, borders, map_length, part_a, part_b, points, written_areas};
use words::Family;

// "Opening gives m and n", or the refusal of the check that declines. What it accepts is a byte string that opens.
pub fn open(map: &[u8]) -> Result<Size, Refusal>
    ensures result_value { opened_means result ≡ open_of map.now }
    ensures opens { (z : Size) → open_of map.now ≡ answer z → Opens map.now }
{
    check(map)?;
    Ok(Size {
        m: borders(map),
        n: points(map),
    })
}

// The same checks, for whoever goes on with the bytes: those that were given, which open.
pub fn open_map(map: &[u8]) -> Result<OpenMap<'_>, Refusal>
    ensures value { means (λ o. tt {0}) result ≡ open_check map.now }
    ensures same { IfOk result (λ o. o.bytes.now ≡ map.now) }
{
    check(map)?;
    Ok(OpenMap { bytes: map })
}

// "Checks run in table order", and 20 "between 8 and 9": the refusal of the first that declines.
pub fn check(map: &[u8]) -> Result<(), Refusal>
    ensures value { checks_mean result ≡ open_check map.now }
    ensures opens { open_refusal map.now ≡ 0 → Opens map.now }
{
    check_header(map)?;
    if !unused_fits(map) {
        return Err(Refusal::UnusedBit);
    }
    if !ones_fit(map) {
        return Err(Refusal::Ones);
    }
    if !brackets_fit(map) {
        return Err(Refusal::Brackets);
    }
    Ok(())
}

// What the header and the length say by themselves: 8, 20 or 9, the first that declines.
fn check_header(map: &[u8]) -> Result<(), Refusal>
    ensures { checks_mean result ≡ header_check map.now }
{
    if !size_fits(map) {
        return Err(Refusal::Header);
    }
    if !areas_fit(map) {
        return Err(Refusal::Areas);
    }
    if !length_fits(map) {
        return Err(Refusal::Length);
    }
    Ok(())
}

// 8: the header is not there, "m over 2,048, or n not 1 to m+1"
fn size_fits(map: &[u8]) -> bool
    ensures { result ≡ size_fits map.now }
{
    let m = borders(map);
    let n = points(map);
    if map.len() < HEADER {
        return false;
    }
    if MOST_BORDERS < m {
        return false;
    }
    if n < 1 {
        return false;
    }
    n <= m + 1
}

// 20: "when the written count isn't m-n+2"
fn areas_fit(map: &[u8]) -> bool
    ensures { result ≡ areas_fit map.now }
{
    written_areas(map) == areas(map)
}

// 9: "length differs from the header's"
fn length_fits(map: &[u8]) -> bool
    ensures { result ≡ length_fits map.now }
{
    map.len() == map_length(map)
}

// 10: "an unused bit is 1"
fn unused_fits(map: &[u8]) -> bool
    ensures { result ≡ unused_fits map.now }
{
    unused_a(map) && unused_b(map, Family::Round) && unused_b(map, Family::Square)
}

// 11: "A has not 2n-2 ones"
fn ones_fit(map: &[u8]) -> bool
    ensures { result ≡ ones_fit map.now }
{
    bits::rank(part_a(map), 1, bits_a(map)) == bits_b(map, Family::Round)
}

// 12: "B or B* not balanced (0 opens)"
fn brackets_fit(map: &[u8]) -> bool
    ensures { result ≡ brackets_fit map.now }
{
    balanced_b(map, Family::Round) && balanced_b(map, Family::Square)
}

// Whether the unused bits of A are 0.
fn unused_a(map: &[u8]) -> bool
    ensures { result ≡ unused_zero (part_a map.now) (bits_a (size_in map.now)) }
{
    bits::unused_zero(part_a(map), bits_a(map))
}

// Whether the unused bits of B or B* are 0. This and the next lend the same two things to a function each: one over the function
// would be no shorter.
fn unused_b(map: &[u8], family: Family) -> bool
    ensures { result ≡ unused_zero (part_b family map.now) (bits_b family (size_in map.now)) }
{
    bits::unused_zero(part_b(map, family), bits_b(map, family))
}

// Whether B or B* is balanced.
fn balanced_b(map: &[u8], family: Family) -> bool
    ensures { result ≡ balanced (brackets (part_b family map.now)) (bits_b family (size_in map.now)) }
{
    matching::is_balanced(part_b(map, family), bits_b(map, family))
}
