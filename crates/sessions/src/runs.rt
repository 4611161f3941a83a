// A session: the checks, once, then one call after the other, with the place passed on.
ghost use Rattle.std.specs.Prelude.{◌≡◌, length};
ghost use Rattle.answers.specs.Means.{place_means};
ghost use Rattle.answers.specs.Answer.{told};
ghost use Rattle.answers.specs.Lent.{laid, leaves};
ghost use Rattle.drawing.specs.Session.{Outcome};
ghost use Rattle.format.specs.Calls.{map_session};
ghost use Rattle.format.specs.Sessions.{calls_of, ran_of, statuses_of, values_of};
ghost use Rattle.sessions.specs.Runs.{Room, Leaves};

use crate::codes::are_calls;
use answers::{Place, Refusal};
use calling::tell;
use layout::bits_a;
use opening::{OpenMap, open_map};
use surveying::{Lists, Survey};

// A list of calls is short that has fewer than FEW, and one more for so many places: a call that walks through the bytes takes
// as long as the pass takes for so many places, and FEW of them as long as making the lists.
const FEW: usize = 16;

const PLACES_A_CALL: usize = 40;

// Runs the calls on the map, from the first number on.
#[tactic(auto, using(answers::proofs::Passing::passed_up, crate::proofs::Checked::ran_declines, crate::proofs::Checked::ran_short_statuses, crate::proofs::Checked::ran_short_answers, crate::proofs::Checked::ran_no_call, crate::proofs::Checked::ran_answers), unfolding(answers::specs::Lent::leaves))]
pub fn session(
    map: &[u8],
    first: Place,
    calls: &[u8],
    statuses: &mut [u8],
    answers: &mut [u16],
) -> Result<Place, Refusal>
    ensures result_value { place_means result ≡ told (λ (o : Outcome). o.place)
        (ran_of map.now first.0 calls.now (length statuses.old) (length answers.old)) }
    ensures statuses_after { statuses.new ≡ leaves (λ (o : Outcome). laid (statuses_of o))
        (ran_of map.now first.0 calls.now (length statuses.old) (length answers.old))
        statuses.old }
    ensures answers_after { answers.new ≡ leaves (λ (o : Outcome). laid (values_of o))
        (ran_of map.now first.0 calls.now (length statuses.old) (length answers.old))
        answers.old }
{
    let open = open_map(map)?;
    if statuses.len() < calls.len() {
        return Err(Refusal::Room);
    }
    if answers.len() < calls.len() {
        return Err(Refusal::Room);
    }
    if !are_calls(calls) {
        return Err(Refusal::NoCall);
    }
    if is_short(map, calls) {
        return Ok(run(&Survey::empty(open), first, calls, statuses, answers));
    }
    Ok(run_surveyed(open, first, calls, statuses, answers))
}

// Whether a list of calls is short: few calls walk through the bytes, many look up in lists of the whole map. The answers are the
// same either way.
fn is_short(map: &[u8], calls: &[u8]) -> bool {
    calls.len() < FEW + bits_a(map) / PLACES_A_CALL
}

// Many calls. A function of its own, and not inlined, so that the lists are not on the stack of a short session.
#[inline(never)]
fn run_surveyed(
    map: OpenMap<'_>,
    first: Place,
    calls: &[u8],
    statuses: &mut [u8],
    answers: &mut [u16],
) -> Place
    requires { Room calls.now statuses.old answers.old }
    ensures { Leaves (map_session map.entry.bytes.now first.0 (calls_of calls.now))
        result.0 statuses.old answers.old statuses.new answers.new }
{
    let mut lists = Lists::new();
    run(&lists.survey(map), first, calls, statuses, answers)
}

// The calls in order: "It holds one number, the place". The lists are written by their index: of what is written through a zip of
// `iter_mut` a proof knows nothing.
#[tactic(auto, using(crate::proofs::Passing::partway_start, crate::proofs::Passing::partway_end))]
fn run(
    survey: &Survey,
    first: Place,
    calls: &[u8],
    statuses: &mut [u8],
    answers: &mut [u16],
) -> Place
    requires { Room calls.now statuses.old answers.old }
    ensures { Leaves (map_session survey.now.map.now first.0 (calls_of calls.now))
        result.0 statuses.old answers.old statuses.new answers.new }
{
    let mut place = first;
    for (i, &code) in calls.iter().enumerate() {
        match tell(
            survey.map,
            survey.mates,
            survey.areas,
            survey.points,
            code,
            place,
        ) {
            Ok(found) => {
                statuses[i] = 0;
                answers[i] = found.entry();
                place = found.place_after(place);
            }
            Err(e) => {
                statuses[i] = u8::from(e);
                answers[i] = 0;
            }
        }
    }
    place
}
