// A point or an area, by its number: what both have in common is said of a cell.
ghost use Rattle.std.specs.Prelude.{◌≡◌};
ghost use Rattle.format.specs.Calls.{family_of_kind};
ghost use Rattle.opening.specs.Cells.{kind_of, number_of_cell};

use answers::{Area, Point};
use words::Family;

// A point or an area, by its number.
#[derive(Clone, Copy, Debug, PartialEq, Eq)]
pub enum Cell {
    Point(Point),
    Area(Area),
}

impl Cell {
    // The brackets that enclose it: round ones a point, square ones an area.
    pub fn family(self) -> Family
        ensures { result ≡ family_of_kind (kind_of self) }
    {
        match self {
            Cell::Point(_) => Family::Round,
            Cell::Area(_) => Family::Square,
        }
    }

    pub fn number(self) -> usize
        ensures { result ≡ number_of_cell self }
    {
        match self {
            Cell::Point(p) => p.0,
            Cell::Area(a) => a.0,
        }
    }
}
