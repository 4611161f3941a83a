// Points and areas: their first places, how many places they have, and an area's neighbours. Two functions under four names, which
// README and docs/ have: a point has a degree, an area has sides.
ghost use Rattle.std.specs.Prelude.{◌≡◌};
ghost use Rattle.answers.specs.Means.{place_means, count_means};
ghost use Rattle.answers.specs.Answer.{Kind};
ghost use Rattle.format.specs.Calls.{first_of, size_of, neighbours_of};
ghost use Rattle.opening.specs.Cells.{kind_of, number_of_cell};

use answers::{Area, Place, Point, Refusal};
use layout::bits_a;
use neighbouring::neighbours_at;
use opening::{Cell, check_cell};
use sizing::size_at;
use walking::first_at;

// The first place of a point: 1 for point 1, else the place after the ( that reaches it; 0 if m = 0.
pub fn point_first(map: &[u8], point: Point) -> Result<Place, Refusal>
    ensures { place_means result ≡ first_of map.now Kind.point point.0 }
{
    first_of(map, Cell::Point(point))
}

// The first place of an area: its lowest; 0 if m = 0.
pub fn area_first(map: &[u8], area: Area) -> Result<Place, Refusal>
    ensures { place_means result ≡ first_of map.now Kind.area area.0 }
{
    first_of(map, Cell::Area(area))
}

// How many places have this point.
pub fn degree(map: &[u8], point: Point) -> Result<usize, Refusal>
    ensures { count_means result ≡ size_of map.now Kind.point point.0 }
{
    size_of(map, Cell::Point(point))
}

// How many places have this area.
pub fn sides(map: &[u8], area: Area) -> Result<usize, Refusal>
    ensures { count_means result ≡ size_of map.now Kind.area area.0 }
{
    size_of(map, Cell::Area(area))
}

// How many other areas lie across the area's sides.
pub fn neighbours(map: &[u8], area: Area) -> Result<usize, Refusal>
    ensures { count_means result ≡ neighbours_of map.now area.0 }
{
    check_cell(map, Cell::Area(area))?;
    Ok(neighbours_at(map, area))
}

// The first place of a point or an area; an empty map has none: "Both are 0 if m = 0."
fn first_of(map: &[u8], cell: Cell) -> Result<Place, Refusal>
    ensures { place_means result ≡ first_of map.now (kind_of cell) (number_of_cell cell) }
{
    check_cell(map, cell)?;
    if bits_a(map) == 0 {
        return Ok(Place(0));
    }
    Ok(Place(first_at(map, cell) + 1))
}

// How many places a point or an area has.
fn size_of(map: &[u8], cell: Cell) -> Result<usize, Refusal>
    ensures { count_means result ≡ size_of map.now (kind_of cell) (number_of_cell cell) }
{
    check_cell(map, cell)?;
    Ok(size_at(map, cell))
}
