// How long strings are.
ghost use Rattle.std.specs.Prelude.{◌≡◌, ◌+◌, ◌*◌, ◌≤◌};
ghost use Rattle.bits.specs.Strings.{bytes_for};

// How many bytes k bits take, from a fresh byte.
#[tactic(auto, unfolding(crate::specs::Strings::bytes_for))]
pub fn bytes_for(k: usize) -> usize
    ensures { (result ≡ bytes_for k) × (k ≤ 8 * result) × (8 * result ≤ k + 7) }
{
    k.div_ceil(8)
}
