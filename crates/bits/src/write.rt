// Writing one bit of a string.
ghost use Rattle.std.specs.Prelude.{◌≡◌, ◌<◌};
ghost use Rattle.bits.specs.Writes.{with_bit, set_bit};

// Makes bit i be v. Nothing changes where i is past the end.
#[tactic(auto, using(crate::proofs::Stores::stored, crate::proofs::Stores::stored_past))]
pub fn set_bit(s: &mut [u8], i: usize, v: bool)
    ensures { s.new ≡ set_bit s.old i v }
{
    let k = i / 8;
    if k < s.len() {
        s[k] = with_bit(s[k], i % 8, v);
    }
}

// The byte x with bit r made v.
#[tactic(auto, using(crate::proofs::Stores::turned))]
fn with_bit(x: u8, r: usize, v: bool) -> u8
    requires { r < 8 }
    ensures { result ≡ with_bit x r v }
{
    let p = 1 << r;
    // v as a number, and no jump: the bits of a string are hard to foresee.
    x - (x >> r) % 2 * p + u8::from(v) * p
}
