// One call of a session, on bytes that open, looked up in lists of the map.
ghost use Rattle.std.specs.Prelude.{◌≡◌};
ghost use Rattle.format.specs.Bytes.{word_in};
ghost use Rattle.format.specs.Calls.{map_answer};
ghost use Rattle.format.specs.Sessions.{call_of, entry_of};
ghost use Rattle.walking.specs.Positions.{Position};
ghost use Rattle.surveying.specs.Surveyed.{Surveyed};
ghost use Rattle.answers.specs.Means.{turn_reply};
ghost use Rattle.calling.specs.Codes.{meant};
ghost use Rattle.calling.specs.Told.{found_reply, place_from, Fits, Finds, Gives};

use crate::codes::Call;
use answers::{Area, Place, Point, Refusal, Turn};
use layout::bits_a;
use surveying::Survey;
use walking::{turn_back_to, turn_to};
use words::Family;

// What the sign adds to a place in the list of answers, which C reads: bit 15.
const GONE_ROUND: usize = 32768;

// What a call answers at a place: a move another place, a turn also whether it has gone round, the others its point or its area.
#[derive(Clone, Copy, Debug, PartialEq, Eq)]
pub enum Found {
    To(Place),
    Turned(Turn),
    About(Point),
    On(Area),
}

impl Found {
    // Of a move "the answer is the new place"; else "the place stays".
    pub fn place_after(self, at: Place) -> Place
        ensures { result.0 ≡ place_from self at.0 }
    {
        match self {
            Found::To(p) => p,
            Found::Turned(turn) => turn.place,
            Found::About(_) => at,
            Found::On(_) => at,
        }
    }

    // The entry in the list of answers: the number, and bit 15 where a turn has gone round.
    #[tactic(auto, using(crate::proofs::Telling::entry_fits_lem))]
    pub fn entry(self) -> u16
        requires { Fits self }
        ensures { result ≡ entry_of (found_reply self) }
    {
        let number = match self {
            Found::To(p) => p.0,
            Found::Turned(turn) => signed(turn),
            Found::About(p) => p.0,
            Found::On(a) => a.0,
        };
        number as u16
    }
}

// The number of a turn's place, and bit 15 where it has gone round.
#[tactic(auto, using(crate::proofs::Telling::entry_signed))]
fn signed(turn: Turn) -> usize
    requires { Fits (Found.Turned turn) }
    ensures { result ≡ entry_of (turn_reply turn) }
{
    let at = turn.place;
    if turn.round { at.0 + GONE_ROUND } else { at.0 }
}

// One call at a place, by its code; a code of no call asks for the area. NoPlace: "place not 1 to 2m". The lists are lent one by
// one: whoever has them need not have a Survey.
#[tactic(auto, using(crate::proofs::Coded::call_read))]
pub fn tell(
    map: &[u8],
    mates: &[u16],
    areas: &[u16],
    points: &[u16],
    code: u8,
    place: Place,
) -> Result<Found, Refusal>
    requires { Surveyed map.now mates.now areas.now points.now }
    ensures { Gives (call_of code) (map_answer map.now (call_of code) place.0) place.0 result }
{
    let call = Call::try_from(code).unwrap_or(Call::Area);
    let survey = Survey {
        map,
        mates,
        areas,
        points,
    };
    tell_call(&survey, call, place)
}

// The same by the call, of a Survey.
#[tactic(auto, using(crate::proofs::Telling::tells_no_place, crate::proofs::Telling::tells_past, crate::proofs::Telling::place_at, crate::proofs::Telling::tells_inside))]
fn tell_call(survey: &Survey, call: Call, place: Place) -> Result<Found, Refusal>
    ensures { Gives (meant call) (map_answer survey.now.map.now (meant call) place.0) place.0 result }
{
    let i = place.0;
    if i == 0 {
        return Err(Refusal::NoPlace);
    }
    if bits_a(survey.map) < i {
        return Err(Refusal::NoPlace);
    }
    Ok(found_at(survey, call, i - 1))
}

// What a call answers at position p.
#[tactic(auto, using(crate::proofs::Telling::found_cross, crate::proofs::Telling::found_along))]
fn found_at(survey: &Survey, call: Call, p: usize) -> Found
    requires { Position survey.now.map.now p }
    ensures { Finds (word_in survey.now.map.now) (meant call) p result }
{
    match call {
        Call::Cross => Found::To(Place(survey.own_mate(p) + 1)),
        Call::Turn => Found::Turned(turn_to(survey.map, p, survey.step(Family::Round, p))),
        Call::TurnBack => Found::Turned(turn_back_to(survey.map, p, survey.back(Family::Round, p))),
        Call::Along => Found::To(Place(survey.step(Family::Square, p) + 1)),
        Call::Point => Found::About(survey.point(p)),
        Call::Area => Found::On(survey.area(p)),
    }
}
