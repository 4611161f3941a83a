// The four moves: from a place to a place. Each is the check of its place and a function of `walking`; one function over the other
// would be longer than the four.
ghost use Rattle.std.specs.Prelude.{◌≡◌};
ghost use Rattle.answers.specs.Means.{place_means, turn_means};
ghost use Rattle.format.specs.Calls.{cross_of, turn_of, turn_back_of, along_of};

use answers::{Place, Refusal, Turn};
use opening::check_place;
use walking::{back_at, own_mate_at, step_at, turn_back_to, turn_to};
use words::Family;

// The place of the other end.
pub fn cross(map: &[u8], place: Place) -> Result<Place, Refusal>
    ensures { place_means result ≡ cross_of map.now place.0 }
{
    check_place(map, place)?;
    let other = own_mate_at(map, place.0 - 1) + 1;
    Ok(Place(other))
}

// The next place about the point; after the last the first, with the sign that it has gone round.
pub fn turn(map: &[u8], place: Place) -> Result<Turn, Refusal>
    ensures { turn_means result ≡ turn_of map.now place.0 }
{
    check_place(map, place)?;
    let p = place.0 - 1;
    Ok(turn_to(map, p, step_at(map, Family::Round, p)))
}

// The reverse of turn; before the first place the last, with the sign.
pub fn turn_back(map: &[u8], place: Place) -> Result<Turn, Refusal>
    ensures { turn_means result ≡ turn_back_of map.now place.0 }
{
    check_place(map, place)?;
    let p = place.0 - 1;
    Ok(turn_back_to(map, p, back_at(map, Family::Round, p)))
}

// The next place of the area walk.
pub fn along(map: &[u8], place: Place) -> Result<Place, Refusal>
    ensures { place_means result ≡ along_of map.now place.0 }
{
    check_place(map, place)?;
    let ahead = step_at(map, Family::Square, place.0 - 1) + 1;
    Ok(Place(ahead))
}
