// A run of bits at once: as a number, and how many of them are v; and a byte.
ghost use Rattle.std.specs.Prelude.{◌≡◌, ◌*◌, ◌^◌, ◌<◌, ◌≤◌, min, get_or};
ghost use Rattle.bits.specs.Strings.{field, among, widest};

use crate::blocks::share;

// The most bits of a run: with those before it in its first byte they are in four bytes.
pub const WIDEST: usize = 24;

// The w bits from p on as a number, the first lowest; of more than WIDEST the first.
pub fn field(s: &[u8], p: usize, w: usize) -> usize
    ensures { (result ≡ field s.now p (min w widest)) × (result < 2 ^ widest) }
{
    (four_from(s, p / 8) >> (p % 8)) % (1 << w.min(WIDEST))
}

// How many of the w bits from p on are v; of more than WIDEST, how many of the first.
#[tactic(auto, using(crate::proofs::Fields::ones_few, crate::proofs::Fields::among_share))]
pub fn count_in(s: &[u8], v: usize, p: usize, w: usize) -> usize
    ensures { (result ≡ among v s.now p (min w widest)) × (result ≤ min w widest) }
{
    let ones = field(s, p, w).count_ones() as usize;
    share(v, w.min(WIDEST), ones)
}

// Byte k: 0 past the end.
pub fn byte(s: &[u8], k: usize) -> usize
    ensures { (result ≡ get_or s.now k 0) × (result < 256) }
{
    usize::from(byte_at(s, k))
}

// The four bytes from byte k on as a number, the first lowest.
fn four_from(s: &[u8], k: usize) -> usize
    requires { k < 2 ^ 62 }
    ensures { (result ≡ field s.now (8 * k) 32) × (result < 4294967296) }
{
    if k + 4 <= s.len() {
        return u32::from_le_bytes([s[k], s[k + 1], s[k + 2], s[k + 3]]) as usize;
    }
    u32::from_le_bytes([byte_at(s, k), byte_at(s, k + 1), byte_at(s, k + 2), 0]) as usize
}

// The byte itself.
fn byte_at(s: &[u8], k: usize) -> u8
    ensures { result ≡ get_or s.now k 0 }
{
    s.get(k).copied().unwrap_or(0)
}
