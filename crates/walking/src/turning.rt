// Turn and turn back, from the position that a step leads to, wherever that was found. Round means beyond the point's last place,
// or back beyond its first: two functions, since each compares the other way.
ghost use Rattle.std.specs.Prelude.{◌≡◌};
ghost use Rattle.answers.specs.Means.{turn_reply};
ghost use Rattle.words.specs.Brackets.{step, back};
ghost use Rattle.words.specs.declared.family.Family.TheVariants.{Round as round};
ghost use Rattle.words.specs.Word.{seen};
ghost use Rattle.drawing.specs.Session.{Call};
ghost use Rattle.format.specs.Bytes.{size_in, bits_a, word_in};
ghost use Rattle.format.specs.Calls.{reply_in};
ghost use Rattle.walking.specs.Positions.{Position};

use answers::{Place, Turn};

// Turn at p: r is the next position about the point, and higher than p unless p is the last.
#[tactic(auto, using(crate::proofs::Turns::turn_is))]
pub fn turn_to(map: &[u8], p: usize, r: usize) -> Turn
    requires { Position map.now p × Position map.now r × (r ≡ step (seen round (word_in map.now)) (bits_a (size_in map.now)) p) }
    ensures { turn_reply result ≡ reply_in (word_in map.now) Call.turn p }
{
    Turn {
        place: Place(r + 1),
        round: r <= p,
    }
}

// Turn back at p: q is the position before it about the point, and lower than p unless p is the first.
#[tactic(auto, using(crate::proofs::Turns::turn_back_is))]
pub fn turn_back_to(map: &[u8], p: usize, q: usize) -> Turn
    requires { Position map.now p × Position map.now q × (q ≡ back (seen round (word_in map.now)) (bits_a (size_in map.now)) p) }
    ensures { turn_reply result ≡ reply_in (word_in map.now) Call.turn_back p }
{
    Turn {
        place: Place(q + 1),
        round: p <= q,
    }
}
