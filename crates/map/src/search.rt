// The joining border of two points.
ghost use Rattle.std.specs.Prelude.{◌≡◌};
ghost use Rattle.answers.specs.Means.{place_means};
ghost use Rattle.format.specs.Calls.{joining_of};

use answers::{Place, Point, Refusal};
use opening::{Cell, check_cell, is_number};
use searching::join_at;

// The first place about u, in turning order, whose crossing lands at v; 0 if none does.
pub fn joining(map: &[u8], u: Point, v: Point) -> Result<Place, Refusal>
    ensures { place_means result ≡ joining_of map.now u.0 v.0 }
{
    check_cell(map, Cell::Point(u))?;
    if !is_number(map, Cell::Point(v)) {
        return Err(Refusal::NoPoint);
    }
    Ok(Place(join_at(map, u, v)))
}
