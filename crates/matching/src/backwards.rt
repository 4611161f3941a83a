// Scanning backwards: closings wait, and an opening takes one. Not the scan forwards with a sign: a byte is read from its other end.
ghost use Rattle.std.specs.Prelude.{◌≡◌, ◌+◌, ◌*◌, ◌^◌, ◌≤◌, ◌<◌, length};
ghost use Rattle.matching.specs.Bytes.{entries};
ghost use Rattle.matching.specs.Scans.{behind};

use crate::bytes::{entries, entry};
use crate::scans::Scan;

// From position p back to e, with d that wait, bit by bit.
#[tactic(auto, using(crate::proofs::Loops::coming_start, crate::proofs::Loops::coming_opens, crate::proofs::Loops::coming_closes, crate::proofs::Loops::coming_stuck, crate::proofs::Loops::coming_end))]
pub fn behind_bits(s: &[u8], e: usize, p: usize, d: usize) -> Scan
    requires { (e ≤ p) × (p + d < 2 ^ 64) }
    ensures { result ≡ behind s.now e p d }
{
    let mut depth = d;
    for k in (e..p).rev() {
        if bits::bit(s, k) == 0 {
            if depth == 0 {
                return Scan {
                    left: k + 1 - e,
                    depth: 0,
                };
            }
            depth -= 1;
        } else {
            depth += 1;
        }
    }
    Scan { left: 0, depth }
}

// The same from the start of byte k back to 0: a byte is passed at once where as many wait as its
// unpaired openings.
pub fn behind_bytes(s: &[u8], k: usize, d: usize) -> Scan
    requires { (k ≤ length s.now) × (8 * k + d < 2 ^ 64) }
    ensures { result ≡ behind s.now 0 (8 * k) d }
{
    let t = entries();
    behind_by(&t, s, k, d)
}

#[tactic(auto, using(crate::proofs::Loops::coming_start, crate::proofs::Loops::coming_byte, crate::proofs::Loops::coming_rest, crate::proofs::Loops::coming_end))]
fn behind_by(t: &[u8; 256], s: &[u8], k: usize, d: usize) -> Scan
    requires { (t.now ≡ entries) × ((k ≤ length s.now) × (8 * k + d < 2 ^ 64)) }
    ensures { result ≡ behind s.now 0 (8 * k) d }
{
    let mut depth = d;
    for at in (0..k).rev() {
        let e = entry(t, s[at]);
        if depth < e % 16 {
            return behind_bits(s, 0, 8 * (at + 1), depth);
        }
        depth = depth - e % 16 + e / 16;
    }
    Scan { left: 0, depth }
}
