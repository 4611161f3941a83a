// The point and the area of a place, which are of two types.
ghost use Rattle.std.specs.Prelude.{◌≡◌};
ghost use Rattle.answers.specs.Means.{point_means, area_means};
ghost use Rattle.format.specs.Calls.{point_of, area_of};

use answers::{Area, Place, Point, Refusal};
use opening::check_place;
use walking::{area_of, point_of};

// The point that a place is about.
pub fn point_at(map: &[u8], place: Place) -> Result<Point, Refusal>
    ensures { point_means result ≡ point_of map.now place.0 }
{
    check_place(map, place)?;
    Ok(point_of(map, place.0 - 1))
}

// The area that a place is on the walk of.
pub fn area_at(map: &[u8], place: Place) -> Result<Area, Refusal>
    ensures { area_means result ≡ area_of map.now place.0 }
{
    check_place(map, place)?;
    Ok(area_of(map, place.0 - 1))
}
