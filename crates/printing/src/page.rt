// A page: lent memory, written byte after byte.
ghost use Rattle.std.specs.Prelude.{◌≡◌, [], ◌∷◌, ◌++◌, ◌+◌, ◌-◌, ◌<◌, ◌≤◌, length, replicate};
ghost use Rattle.text.specs.Decimal.{space, zero_byte, decimal, aligned};
ghost use Rattle.printing.specs.Writing.{Puts, Wrote};

// The memory lent, and where its next byte is put.
#[derive(Drop)]
pub struct Page<'a> {
    pub out: &'a mut [u8],
    pub at: usize,
}

impl<'a> Page<'a> {
    // Memory in which nothing is put yet.
    pub fn new(out: &'a mut [u8]) -> Page<'a>
        ensures same_memory { result.out.ghost_name ≡ out.entry.ghost_name }
        ensures blank { (result.out.now ≡ out.old) × (result.at ≡ 0) }
    {
        Page { out, at: 0 }
    }

    // A number of at most four digits, and the byte after it.
    pub fn number(&mut self, x: usize, end: u8)
        requires { (x < 10000) × (self.old.at + 5 ≤ length self.old.out.now) }
        ensures { Puts self.old (decimal x ++ (end ∷ [])) self.new × (self.new.at ≤ self.old.at + 5) }
    {
        self.at += digits_in(x);
        put_digits(self.out, self.at, x);
        self.byte(end);
    }

    // The bytes of a text.
    pub fn text(&mut self, text: &[u8])
        requires { self.old.at + length text.now ≤ length self.old.out.now }
        ensures { Puts self.old text.now self.new }
    {
        let end = self.at + text.len();
        self.out[self.at..end].copy_from_slice(text);
        self.at = end;
    }

    pub fn byte(&mut self, b: u8)
        requires { self.old.at < length self.old.out.now }
        ensures { Puts self.old (b ∷ []) self.new }
    {
        self.out[self.at] = b;
        self.at += 1;
    }

    // A number right-aligned in `width` columns, which it fits: spaces, then the digits over the last of them.
    pub fn column(&mut self, width: usize, x: usize)
        requires { (length (decimal x) ≤ width) × (self.old.at + width ≤ length self.old.out.now) }
        ensures { Puts self.old (aligned width x) self.new × (self.new.at ≡ self.old.at + width) }
    {
        self.spaces(width);
        put_digits(self.out, self.at, x);
    }

    // k spaces.
    fn spaces(&mut self, k: usize)
        requires { self.old.at + k ≤ length self.old.out.now }
        ensures { Puts self.old (replicate k space) self.new }
    {
        let end = self.at + k;
        self.out[self.at..end].fill(b' ');
        self.at = end;
    }
}

// How many digits a number has, of at most four.
#[tactic(auto, using(crate::proofs::Writes::one_digit, crate::proofs::Writes::two_digits, crate::proofs::Writes::three_digits, crate::proofs::Writes::four_digits))]
fn digits_in(x: usize) -> usize
    requires { x < 10000 }
    ensures { (result ≡ length (decimal x)) × (result ≤ 4) }
{
    match x {
        0..=9 => 1,
        10..=99 => 2,
        100..=999 => 3,
        _ => 4,
    }
}

// The digits of a number, the last one just before byte `end`.
#[tactic(auto, using(crate::proofs::Columns::digits_all))]
fn put_digits(out: &mut [u8], end: usize, x: usize)
    requires { (length (decimal x) ≤ end) × (end ≤ length out.old) }
    ensures { Wrote out.old (end - length (decimal x)) (decimal x) end out.new }
{
    // the digits come from the last on, and how many they are shows only at the end: no iterator gives their places
    let mut i = end;
    let mut rest = x;
    while 10 <= rest {
        i -= 1;
        out[i] = digit(rest % 10);
        rest /= 10;
    }
    out[i - 1] = digit(rest);
}

// The byte of a digit.
fn digit(d: usize) -> u8
    requires { d < 10 }
    ensures { result ≡ zero_byte + d }
{
    b'0' + d as u8
}
