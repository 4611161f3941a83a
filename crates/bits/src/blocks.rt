// Counting bits a block at a time: how many of the bits of one byte, or of eight bytes, are 1.
ghost use Rattle.std.specs.Prelude.{◌≡◌, ◌+◌, ◌*◌, ◌≤◌, count_ones};
ghost use Rattle.std.specs.Int.{w64, from_le_bytes};
ghost use Rattle.bits.specs.Strings.{rank, share};

use crate::runs::byte;

// How many of w bits are v, where c of them are 1.
#[tactic(auto, using(crate::proofs::Fields::share_0, crate::proofs::Fields::share_1, crate::proofs::Fields::share_other))]
pub fn share(v: usize, w: usize, c: usize) -> usize
    requires { c ≤ w }
    ensures { (result ≡ share v w c) × (result ≤ w) }
{
    match v {
        0 => w - c,
        1 => c,
        _ => 0,
    }
}

// How many of the first r bits of byte k are 1: none past the end.
pub fn ones_in_byte(s: &[u8], k: usize, r: usize) -> usize
    requires { r ≤ 8 }
    ensures { (rank 1 s.now (8 * k) + result ≡ rank 1 s.now (8 * k + r)) × (result ≤ r) }
{
    (byte(s, k) % (1 << r)).count_ones() as usize
}

// How many of the bits of eight bytes are 1.
pub fn ones_in_eight(block: &[u8; 8]) -> usize
    ensures { (result ≡ count_ones (from_le_bytes w64 block.now)) × (result ≤ 64) }
{
    u64::from_le_bytes(*block).count_ones() as usize
}
