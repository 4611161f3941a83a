// The check of a call's own number, after those of opening: 13, 14 and 15.
ghost use Rattle.std.specs.Prelude.{◌≡◌, []};
ghost use Rattle.answers.specs.Answer.{no_such};
ghost use Rattle.answers.specs.Means.{number, carried, checks_mean};
ghost use Rattle.format.specs.Bytes.{size_in};
ghost use Rattle.format.specs.Calls.{cells_in, is_number};
ghost use Rattle.opening.specs.Cells.{kind_of, number_of_cell};
ghost use Rattle.opening.specs.Checks.{place_check, cell_check};

use crate::cells::Cell;
use crate::checks::check;
use answers::{Place, Refusal};
use layout::{areas, bits_a, points};

// Opening's checks, then 13: "place not 1 to 2m".
pub fn check_place(map: &[u8], place: Place) -> Result<(), Refusal>
    ensures { checks_mean result ≡ place_check map.now place.0 }
{
    let at = place.0;
    check(map)?;
    if at == 0 {
        return Err(Refusal::NoPlace);
    }
    if bits_a(map) < at {
        return Err(Refusal::NoPlace);
    }
    Ok(())
}

// Opening's checks, then 14: "point not 1 to n", or 15: "area not 1 to m-n+2".
pub fn check_cell(map: &[u8], cell: Cell) -> Result<(), Refusal>
    ensures { checks_mean result ≡ cell_check map.now (kind_of cell) (number_of_cell cell) }
{
    check(map)?;
    if !is_number(map, cell) {
        return Err(no_such(cell));
    }
    Ok(())
}

// Whether there is such a point, such an area.
pub fn is_number(map: &[u8], cell: Cell) -> bool
    ensures { result ≡ is_number (size_in map.now) (kind_of cell) (number_of_cell cell) }
{
    let k = cell.number();
    if k == 0 {
        return false;
    }
    k <= cells(map, cell)
}

// How many points, or how many areas, there are.
fn cells(map: &[u8], cell: Cell) -> usize
    ensures { result ≡ cells_in (size_in map.now) (kind_of cell) }
{
    match cell {
        Cell::Point(_) => points(map),
        Cell::Area(_) => areas(map),
    }
}

fn no_such(cell: Cell) -> Refusal
    ensures value { number result ≡ no_such (kind_of cell) }
    ensures bare { carried result ≡ [] }
{
    match cell {
        Cell::Point(_) => Refusal::NoPoint,
        Cell::Area(_) => Refusal::NoArea,
    }
}
