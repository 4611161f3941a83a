// What the working list says of a position.
ghost use Rattle.std.specs.Prelude.{◌≡◌, ◌<◌, ◌/◌, length};
ghost use Rattle.touring.specs.Working.{border_in};

// The border of the end that stands at position p.
#[tactic(auto, using(crate::proofs::Touring::border_is))]
pub fn border_in(work: &[u16], p: usize) -> usize
    requires { p < length work.now }
    ensures { result ≡ border_in work.now p }
{
    usize::from(work[p]) / 2
}
