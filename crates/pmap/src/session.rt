// A whole session: a list of calls from a first number on, in one call.
ghost use Rattle.std.specs.Prelude.{◌≡◌, length as size};
ghost use Rattle.answers.specs.Answer.{number_of, told};
ghost use Rattle.answers.specs.Lent.{laid, leaves, itself};
ghost use Rattle.drawing.specs.Session.{Outcome};
ghost use Rattle.format.specs.Sessions.{ran_of, statuses_of, values_of};

use answers::Place;
use giving::give;

// The status and the answer of each call go to the two lists, the place left at the end to a slot.
#[unsafe(no_mangle)]
pub extern "C" fn pmap_session(
    map: &[u8],
    first: usize,
    calls: &[u8],
    statuses: &mut [u8],
    answers: &mut [u16],
    place: &mut usize,
) -> u8
    ensures value { result ≡ number_of
        (ran_of map.now first calls.now (size statuses.old) (size answers.old)) }
    ensures statuses_after { statuses.new ≡ leaves (λ (o : Outcome). laid (statuses_of o))
        (ran_of map.now first calls.now (size statuses.old) (size answers.old))
        statuses.old }
    ensures answers_after { answers.new ≡ leaves (λ (o : Outcome). laid (values_of o))
        (ran_of map.now first calls.now (size statuses.old) (size answers.old))
        answers.old }
    ensures place_after { place.new ≡ leaves itself
        (told (λ (o : Outcome). o.place) (ran_of map.now first calls.now (size statuses.old) (size answers.old)))
        place.old }
{
    give(
        sessions::session(map, Place(first), calls, statuses, answers),
        place,
    )
}
