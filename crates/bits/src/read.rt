// Reading a string: one bit, how many bits before a position, which position.
ghost use Rattle.std.specs.Prelude.{◌≡◌, ◌+◌, ◌*◌, ◌<◌, ◌≤◌, ◌↔◌, IsTrue, EachIndex, slice_index, length};
ghost use Rattle.bits.specs.Strings.{bit, rank, select, unused_zero};

use crate::blocks::{ones_in_byte, ones_in_eight, share};
use crate::runs::byte;

// Bit i: 0 past the end.
#[tactic(auto, using(crate::proofs::Loops::read_within_lem, crate::proofs::Loops::read_past))]
pub fn bit(s: &[u8], i: usize) -> usize
    ensures { (result ≡ bit s.now i) × (result < 2) }
{
    s.get(i / 8).map_or(0, |x| usize::from((x >> (i % 8)) % 2))
}

// How many of the first i bits are v.
pub fn rank(s: &[u8], v: usize, i: usize) -> usize
    ensures { (result ≡ rank v s.now i) × (result ≤ i) }
{
    let e = (i / 8).min(s.len());
    let (blocks, rest) = s[..e].as_chunks::<8>();
    let mut ones = 0;
    for block in blocks {
        ones += ones_in_eight(block);
    }
    for x in rest {
        ones += x.count_ones() as usize;
    }
    share(v, i, ones + ones_in_byte(s, e, i % 8))
}

// The position of the j-th bit, from 0, that is v among the first n; n where there is none, as the definition `select`
// has it.
pub fn select(s: &[u8], v: usize, n: usize, j: usize) -> usize
    ensures { (result ≡ select v s.now n j) × (result ≤ n) }
{
    let e = (n / 8).min(s.len());
    let (a, left) = past_blocks(s, v, e, j);
    let (k, left) = past_bytes(s, v, e, a, left);
    select_in_bits(s, v, n, 8 * k, left)
}

// Whether every bit from k on is 0.
pub fn unused_zero(s: &[u8], k: usize) -> bool
    ensures { result ≡ unused_zero s.now k }
{
    let at = k / 8;
    byte(s, at) >> (k % 8) == 0 && all_zero(&s[(at + 1).min(s.len())..])
}

// Past the blocks of eight bytes before byte e that have none but the first j of the bits v: the byte after them, and how many of the j
// come after it.
fn past_blocks(s: &[u8], v: usize, e: usize, j: usize) -> (usize, usize)
    requires { e ≤ length s.now }
    ensures { (result.0 ≤ e) × (rank v s.now (8 * result.0) + result.1 ≡ j) }
{
    let (blocks, _) = s[..e].as_chunks::<8>();
    let mut left = j;
    for (b, block) in blocks.iter().enumerate() {
        let here = share(v, 64, ones_in_eight(block));
        if left < here {
            return (8 * b, left);
        }
        left -= here;
    }
    (8 * blocks.len(), left)
}

// The same a byte at a time, from byte a on.
fn past_bytes(s: &[u8], v: usize, e: usize, a: usize, j: usize) -> (usize, usize)
    requires { (a ≤ e) × (e ≤ length s.now) }
    ensures { (result.0 ≤ e) × (rank v s.now (8 * result.0) + result.1 ≡ rank v s.now (8 * a) + j) }
{
    let mut left = j;
    for k in a..e {
        let here = share(v, 8, s[k].count_ones() as usize);
        if left < here {
            return (k, left);
        }
        left -= here;
    }
    (e, left)
}

// The position of the j-th bit from bit p on that is v, as for select.
fn select_in_bits(s: &[u8], v: usize, n: usize, p: usize, j: usize) -> usize
    requires { p ≤ n }
    ensures { (result ≡ select v s.now n (rank v s.now p + j)) × (result ≤ n) }
{
    let mut left = j;
    for k in p..n {
        if bit(s, k) == v {
            if left == 0 {
                return k;
            }
            left -= 1;
        }
    }
    n
}

// Whether every byte is 0.
fn all_zero(s: &[u8]) -> bool
    ensures { IsTrue result ↔ EachIndex s.now (λ i. slice_index s.now i ≡ 0) }
{
    s.iter().all(|x| *x == 0)
}
