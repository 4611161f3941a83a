// Scanning forwards: openings wait, and a closing takes one.
ghost use Rattle.std.specs.Prelude.{◌≡◌, ◌*◌, ◌≤◌, min, length};
ghost use Rattle.matching.specs.Bytes.{entries};
ghost use Rattle.matching.specs.Scans.{ahead};

use crate::bytes::{entries, entry};
use crate::scans::Scan;

// The scan from position p to n, with d that wait; with p where d is more, since no more brackets stand
// before p. A few are passed at once where as many wait.
#[tactic(auto, using(crate::proofs::Partners::ahead_none, crate::proofs::Partners::ahead_at_once, crate::proofs::Partners::ahead_rest))]
pub fn ahead(s: &[u8], n: usize, p: usize, d: usize) -> Scan
    ensures { result ≡ ahead s.now n p (min d p) }
{
    let depth = d.min(p);
    if n <= p {
        return Scan { left: 0, depth };
    }
    let k = n - p;
    if k <= depth.min(bits::WIDEST) {
        return Scan {
            left: 0,
            depth: depth + k - 2 * bits::count_in(s, 1, p, k),
        };
    }
    ahead_from(s, n, p, depth)
}

// From byte k on, with d that wait: a byte is passed at once where as many wait as its unpaired closings.
pub fn ahead_bytes(s: &[u8], n: usize, k: usize, d: usize) -> Scan
    requires { (8 * k ≤ n) × (d ≤ 8 * k) }
    ensures { result ≡ ahead s.now n (8 * k) d }
{
    let t = entries();
    ahead_by(&t, s, n, s.len().min(n / 8), k, d)
}

// From position p to n, with d that wait: bit by bit to the next byte, and from there on a byte at a time.
#[tactic(auto, using(crate::proofs::Partners::ahead_stops, crate::proofs::Partners::left_most, crate::proofs::Partners::depth_most))]
fn ahead_from(s: &[u8], n: usize, p: usize, d: usize) -> Scan
    requires { (p ≤ n) × (d ≤ p) }
    ensures { result ≡ ahead s.now n p d }
{
    let k = p / 8 + 1;
    if n / 8 < k {
        return ahead_bits(s, n, p, d);
    }
    let e = 8 * k;
    let first = ahead_bits(s, e, p, d);
    if first.left != 0 {
        return Scan {
            left: first.left + (n - e),
            depth: 0,
        };
    }
    ahead_bytes(s, n, k, first.depth)
}

// The same by the entries t, where only the first m bytes are passed at once.
#[tactic(auto, using(crate::proofs::Loops::going_start, crate::proofs::Loops::going_byte, crate::proofs::Loops::going_rest))]
fn ahead_by(t: &[u8; 256], s: &[u8], n: usize, m: usize, k: usize, d: usize) -> Scan
    requires { (t.now ≡ entries) × ((m ≤ length s.now) × ((8 * m ≤ n) × ((8 * k ≤ n) × (d ≤ 8 * k)))) }
    ensures { result ≡ ahead s.now n (8 * k) d }
{
    let mut stop = m.max(k);
    let mut depth = d;
    for at in k..m {
        let e = entry(t, s[at]);
        if depth < e / 16 {
            stop = at;
            break;
        }
        depth = depth - e / 16 + e % 16;
    }
    ahead_bits(s, n, 8 * stop, depth)
}

// From position p to n, with d that wait, bit by bit.
#[tactic(auto, using(crate::proofs::Loops::going_start, crate::proofs::Loops::going_opens, crate::proofs::Loops::going_closes, crate::proofs::Loops::going_stuck, crate::proofs::Loops::going_end))]
fn ahead_bits(s: &[u8], n: usize, p: usize, d: usize) -> Scan
    requires { (p ≤ n) × (d ≤ p) }
    ensures { result ≡ ahead s.now n p d }
{
    let mut depth = d;
    for q in p..n {
        if bits::bit(s, q) == 0 {
            depth += 1;
        } else {
            if depth == 0 {
                return Scan {
                    left: n - q,
                    depth: 0,
                };
            }
            depth -= 1;
        }
    }
    Scan { left: 0, depth }
}
