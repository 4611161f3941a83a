// From an answer to a status and the slots that hold it.
ghost use Rattle.std.specs.Prelude.{◌≡◌, ◌<◌, IfOk};
ghost use Rattle.count.specs.Below.{pick};
ghost use Rattle.answers.specs.Answer.{number_of, value_of, told, plain, gone_round};
ghost use Rattle.answers.specs.declared.given.Size.{Size};
ghost use Rattle.answers.specs.Means.{means, opened_means, turn_means};
ghost use Rattle.answers.specs.Lent.{leaves, itself};

use answers::{Area, Place, Point, Refusal, Size, Turn};

// What a call gives, as a slot of the type S has it. One impl for each kind of number: a place never serves as a point or an area
// number.
pub trait Slotted<S> {
    ghost slotted: { Self → S };

    ghost fits: { Self → Type 0 };

    fn slotted(self) -> S
        requires { fits self }
        ensures { result ≡ slotted self };
}

impl Slotted<u16> for Place {
    ghost slotted = { λ p. p.0 };

    ghost fits = { λ p. p.0 < 65536 };

    fn slotted(self) -> u16 {
        self.0 as u16
    }
}

impl Slotted<u16> for Point {
    ghost slotted = { λ p. p.0 };

    ghost fits = { λ p. p.0 < 65536 };

    fn slotted(self) -> u16 {
        self.0 as u16
    }
}

impl Slotted<u16> for Area {
    ghost slotted = { λ a. a.0 };

    ghost fits = { λ a. a.0 < 65536 };

    fn slotted(self) -> u16 {
        self.0 as u16
    }
}

impl Slotted<u16> for usize {
    ghost slotted = { λ x. x };

    ghost fits = { λ x. x < 65536 };

    fn slotted(self) -> u16 {
        self as u16
    }
}

// The place that a session leaves: any number, since a session begins with any.
impl Slotted<usize> for Place {
    ghost slotted = { λ p. p.0 };

    ghost fits = { λ p. Unit {0} };

    fn slotted(self) -> usize {
        let Place(left) = self;
        left
    }
}

// A factor.
impl Slotted<f64> for f64 {
    ghost slotted = { λ x. x };

    ghost fits = { λ x. Unit {0} };

    fn slotted(self) -> f64 {
        self
    }
}

// What a call gives, in one slot.
#[tactic(auto, unfolding(answers::specs::Answer::number_of, answers::specs::Answer::value_of, answers::specs::Lent::leaves))]
pub fn give<S: Copy, T: Slotted<S>>(a: Result<T, Refusal>, out: &mut S) -> u8
    requires { IfOk a T.fits }
    ensures value { result ≡ number_of (means T.slotted a) }
    ensures out_after { out.new ≡ leaves itself (means T.slotted a) out.old }
{
    match a {
        Ok(x) => {
            *out = x.slotted();
            0
        }
        Err(e) => u8::from(e),
    }
}

// Where a turn leads, and 1 where it has gone round, else 0, in two slots.
#[tactic(auto, unfolding(answers::specs::Answer::number_of, answers::specs::Answer::value_of, answers::specs::Lent::leaves))]
pub fn give_turn(a: Result<Turn, Refusal>, out: &mut u16, round: &mut u8) -> u8
    requires { value_of (plain (turn_means a)) < 65536 }
    ensures value { result ≡ number_of (turn_means a) }
    ensures out_after { out.new ≡ leaves itself (plain (turn_means a)) out.old }
    ensures round_after { round.new ≡ leaves itself (gone_round (turn_means a)) round.old }
{
    match a {
        Ok(turn) => {
            let x = turn.place.0;
            *out = x as u16;
            *round = u8::from(turn.round);
            0
        }
        Err(declined) => u8::from(declined),
    }
}

// m and n, in two slots.
#[tactic(auto, unfolding(answers::specs::Answer::number_of, answers::specs::Answer::value_of, answers::specs::Lent::leaves))]
pub fn give_size(a: Result<Size, Refusal>, m: &mut u16, n: &mut u16) -> u8
    requires { (value_of (told (λ (z : Size). z.m) (opened_means a)) < 65536) × (value_of (told (λ (z : Size). z.n) (opened_means a)) < 65536) }
    ensures value { result ≡ number_of (opened_means a) }
    ensures m_after { m.new ≡ leaves itself (told (λ (z : Size). z.m) (opened_means a)) m.old }
    ensures n_after { n.new ≡ leaves itself (told (λ (z : Size). z.n) (opened_means a)) n.old }
{
    match a {
        Ok(size) => {
            *m = size.m as u16;
            *n = size.n as u16;
            0
        }
        Err(refusal) => u8::from(refusal),
    }
}
