// Bracket matching: 0 opens, 1 closes.
ghost use Rattle.std.specs.Prelude.{◌≡◌, ◌<◌, ◌≤◌};
ghost use Rattle.bits.specs.Strings.{bit, brackets};
ghost use Rattle.words.specs.Brackets.{balanced, mate, inner, closer};

use crate::backwards::{behind_bits, behind_bytes};
use crate::forwards::{ahead, ahead_bytes};

// Whether the first n bits are balanced: no closing without its opening, and none left open.
#[tactic(auto, using(crate::proofs::Partners::balanced_past, crate::proofs::Partners::balanced_not, crate::proofs::Partners::balanced_so))]
pub fn is_balanced(s: &[u8], n: usize) -> bool
    ensures { result ≡ balanced (brackets s.now) n }
{
    if s.len() < n / 8 {
        return false;
    }
    let rest = ahead_bytes(s, n, 0, 0);
    rest.left == 0 && rest.depth == 0
}

// The position of the partner of bracket i: for an opening its closing before n, or n where there is
// none; for a closing the innermost open bracket, or 0 where there is none: as the definition `mate` has it.
#[tactic(auto, using(crate::proofs::Partners::partner_far, crate::proofs::Partners::partner_ahead, crate::proofs::Partners::partner_behind))]
pub fn partner(s: &[u8], n: usize, i: usize) -> usize
    ensures { result ≡ mate (brackets s.now) n i }
{
    if bits::bit(s, i) == 0 {
        if n <= i {
            return n;
        }
        return closing(s, n, i);
    }
    enclosing(s, i).saturating_sub(1)
}

// The innermost bracket that is open just before position i: 1 + its position; 0 where none is, as the definition `inner` has it.
pub fn enclosing(s: &[u8], i: usize) -> usize
    ensures { (result ≡ inner (brackets s.now) i) × (result ≤ i) }
{
    let k = i / 8;
    if s.len() < k {
        return i;
    }
    let w = behind_bits(s, 8 * k, i, 0);
    if w.left != 0 {
        return 8 * k + w.left;
    }
    behind_bytes(s, k, w.depth).left
}

// The closing of the opening i, before n; n where there is none, as the definition `closer` has it.
#[tactic(auto, using(crate::proofs::Partners::left_most, crate::proofs::Partners::closing_is))]
fn closing(s: &[u8], n: usize, i: usize) -> usize
    requires { (i < n) × (bit s.now i ≡ 0) }
    ensures { result ≡ closer (brackets s.now) n i }
{
    n - ahead(s, n, i + 1, 0).left
}
