// The two lists that a caller lends: what they say of an area, and whether that is allowed (18).
ghost use Rattle.std.specs.Prelude.{◌≡◌, ◌+◌, ◌<◌};
ghost use Rattle.tariff.specs.declared.factor.Factor.{Factor};
ghost use Rattle.tariff.specs.Tariff.{within, allowed, factor_at, tariff_fits};
ghost use Rattle.pricing.specs.Lists.{InLists, entry_fits};

use answers::Area;
use tariff::Factor;

// "Factors, floors and ceilings lie between the f64 nearest 0.01 and 100.0."
const LEAST: f64 = 0.01;

const MOST: f64 = 100.0;

// The two lists, which belong together.
#[derive(Clone, Copy)]
pub struct Tariff<'a> {
    pub kinds: &'a [u8],
    pub values: &'a [f64],
}

impl Tariff<'_> {
    // Whether the lists are those of so many areas, and all that they say is allowed.
    #[tactic(auto, unfolding(tariff::specs::Tariff::tariff_fits))]
    pub fn fits(&self, areas: usize) -> bool
        requires { areas < 65538 }
        ensures { result ≡ tariff_fits areas self.now.kinds.now self.now.values.now }
    {
        self.kinds.len() == areas
            && self.values.len() == 3 * areas
            && (0..areas).all(|i| self.entry_fits(i))
    }

    // Whether what the lists say of one area is allowed; areas count from 0 here.
    #[tactic(auto, using(crate::proofs::Laws::entry_allowed), unfolding(crate::specs::Lists::entry_fits))]
    fn entry_fits(&self, i: usize) -> bool
        requires { InLists self.now.kinds.now self.now.values.now (i + 1) × (i < 65538) }
        ensures { result ≡ entry_fits self.now.kinds.now self.now.values.now i }
    {
        self.kinds[i] <= 2 && is_allowed(self.factor(Area(i + 1)))
    }

    // What the lists say of an area. What its kind does not use is not read. A kind is a byte, as C lends it.
    #[tactic(auto, using(crate::proofs::Laws::at_own, crate::proofs::Laws::at_held, crate::proofs::Laws::at_unknown))]
    pub fn factor(&self, area: Area) -> Factor
        requires { InLists self.now.kinds.now self.now.values.now area.0 }
        ensures { result ≡ factor_at self.now.kinds.now self.now.values.now area.0 }
    {
        let i = area.0 - 1;
        let at = 3 * i;
        match self.kinds[i] {
            0 => Factor::Own(self.values[at]),
            1 => Factor::Held(self.values[at], self.values[at + 1], self.values[at + 2]),
            _ => Factor::Unknown,
        }
    }
}

// Whether what a factor uses is allowed.
#[tactic(auto, unfolding(tariff::specs::Tariff::allowed))]
fn is_allowed(factor: Factor) -> bool
    ensures { result ≡ allowed factor }
{
    match factor {
        Factor::Own(x) => is_within(x),
        Factor::Held(x, low, high) => may_hold(x, low, high),
        Factor::Unknown => true,
    }
}

// Whether a factor, its floor and its ceiling are within the bounds, and the floor does not exceed the ceiling.
#[tactic(auto, unfolding(tariff::specs::Tariff::allowed))]
fn may_hold(x: f64, low: f64, high: f64) -> bool
    ensures { result ≡ allowed (Factor.Held x low high) }
{
    is_within(x) && is_within(low) && is_within(high) && !(high < low)
}

// Whether a number lies between the bounds; what is no number does not. Two comparisons: `(LEAST..=MOST).contains(&x)` says no more.
#[tactic(auto, unfolding(tariff::specs::Tariff::within))]
fn is_within(x: f64) -> bool
    ensures { result ≡ within x }
{
    LEAST <= x && x <= MOST
}
