// Writing zeros to a list of numbers of one kind.
ghost use Rattle.std.specs.Prelude.{◌≡◌, ℕ, List};
ghost use Rattle.answers.specs.Lent.{cleared};
ghost use Rattle.lending.specs.Lists.{cleared_to, cleared_zero};

// A kind of number that has a 0.
pub trait Zero: Copy {
    const ZERO: Self;

    ghost ZERO: { Self };

    // The list with its first entries 0, as callers know it, and what it is.
    ghost cleared: { ℕ → List Self → List Self };

    ghost cleared_is: { (k : ℕ) (l : List Self) → cleared k l ≡ cleared_to ZERO k l };

    // A copy of 0 is made, and is 0.
    ghost copies: { Self.is_infallible ZERO };

    ghost copy_is: { (y : Self) → Self.is_clone ZERO y → y ≡ ZERO };
}

impl Zero for u16 {
    const ZERO: u16 = 0;

    ghost ZERO = { 0 };

    ghost cleared = { cleared };

    ghost cleared_is = { cleared_zero };

    ghost copies = { tt };

    ghost copy_is = { λ y e. e };
}

impl Zero for u8 {
    const ZERO: u8 = 0;

    ghost ZERO = { 0 };

    ghost cleared = { cleared };

    ghost cleared_is = { cleared_zero };

    ghost copies = { tt };

    ghost copy_is = { λ y e. e };
}

// Makes the first k entries 0, all of them where there are fewer.
pub fn clear<T: Zero>(s: &mut [T], k: usize)
    ensures { s.new ≡ T.cleared k s.old }
{
    let n = k.min(s.len());
    s[..n].fill(T::ZERO);
}
