// Ends as the lists hold them: 16-bit numbers.
ghost use Rattle.std.specs.Prelude.{◌≡◌};
ghost use Rattle.drawing.specs.Drawing.{other};

// The other end of h's border.
#[tactic(auto, using(crate::proofs::Across::other_even_is, crate::proofs::Across::other_odd_is))]
pub fn other(h: u16) -> u16
    ensures { result ≡ other h }
{
    if h % 2 == 0 { h + 1 } else { h - 1 }
}
