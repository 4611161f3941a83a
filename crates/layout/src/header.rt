// The header: "m, then n, each two bytes, low byte first"; then the count of areas. A byte past the end is read as 0.
// Each of the three fields has a name, and what they share is le16.
ghost use Rattle.std.specs.Prelude.{◌≡◌, ◌<◌};
ghost use Rattle.format.specs.Bytes.{header, areas_of, size_in, written_areas, le16_at};

use bits::byte;
use format::{AT_AREAS, AT_M, AT_N};

// m
#[tactic(auto, unfolding(format::specs::Bytes::size_in))]
pub fn borders(map: &[u8]) -> usize
    ensures { (result ≡ (size_in map.now).m) × (result < 65536) }
{
    le16(map, AT_M)
}

// n
#[tactic(auto, unfolding(format::specs::Bytes::size_in))]
pub fn points(map: &[u8]) -> usize
    ensures { (result ≡ (size_in map.now).n) × (result < 65536) }
{
    le16(map, AT_N)
}

// How many areas there are: m-n+2, and 0 where n is greater than m+2.
pub fn areas(map: &[u8]) -> usize
    ensures { (result ≡ areas_of (size_in map.now)) × (result < 65538) }
{
    (borders(map) + 2).saturating_sub(points(map))
}

// The count of areas that the header has, right or wrong.
#[tactic(auto, unfolding(format::specs::Bytes::written_areas))]
pub fn written_areas(map: &[u8]) -> usize
    ensures { result ≡ written_areas map.now }
{
    le16(map, AT_AREAS)
}

// The number that the bytes at i and i + 1 hold.
#[tactic(auto, unfolding(format::specs::Bytes::le16_at))]
fn le16(map: &[u8], i: usize) -> usize
    requires { i < header }
    ensures { (result ≡ le16_at map.now i) × (result < 65536) }
{
    let low = byte(map, i);
    let high = byte(map, i + 1);
    low + 256 * high
}
