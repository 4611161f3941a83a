// The lines of a schedule: an area's, what stands before it on a new page, and the last.
ghost use Rattle.std.specs.Prelude.{◌≡◌, ◌+◌, ◌<◌, ◌≤◌, length};
ghost use Rattle.printing.specs.Writing.{Puts};
ghost use Rattle.text.specs.Schedule.{row_line, total_line};
ghost use Rattle.scheduling.specs.Breaks.{page_break};

use answers::{Area, Place};
use printing::Page;

// The areas of a page.
const PER_PAGE: usize = 50;

// Puts the line of an area: its number, its sides and its first place. Two spaces and 5 columns are 7 columns, since no number
// has six digits.
pub fn put_row(page: &mut Page, area: Area, sides: usize, first: Place)
    requires { (area.0 < 100000)
        × (sides < 100000)
        × (first.0 < 100000)
        × (page.old.at + 20 ≤ length page.old.out.now) }
    ensures wrote { Puts page.old (row_line (record { area = area.0; sides = sides; first = first.0 })) page.new }
    ensures value { page.new.at ≡ page.old.at + 20 }
{
    page.column(5, area.0);
    page.column(7, sides);
    page.column(7, first.0);
    page.byte(b'\n');
}

// Puts what stands before the line of area i + 1: on a new page its heading, and an empty line before that, but for the first page.
pub fn put_break(page: &mut Page, i: usize)
    requires { page.old.at + 21 ≤ length page.old.out.now }
    ensures { Puts page.old (page_break i) page.new }
{
    if i % PER_PAGE != 0 {
        return;
    }
    if i != 0 {
        page.byte(b'\n');
    }
    page.text(b" area  sides  first\n");
}

// Puts the last line, with the sum of the sides.
pub fn put_total(page: &mut Page, sum: usize)
    requires { (sum < 100000) × (page.old.at + 13 ≤ length page.old.out.now) }
    ensures { Puts page.old (total_line sum) page.new }
{
    page.text(b"total");
    page.column(7, sum);
    page.byte(b'\n');
}
