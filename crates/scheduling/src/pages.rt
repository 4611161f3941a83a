// The pages of a schedule, and the sum of the sides that stand on them.
ghost use Rattle.std.specs.Prelude.{◌≡◌, ◌+◌, ◌≤◌, length};
ghost use Rattle.printing.specs.Writing.{Puts};
ghost use Rattle.tallying.specs.Tallied.{Tallied};
ghost use Rattle.text.specs.Schedule.{schedule};

use crate::rows::{put_break, put_row, put_total};
use answers::Area;
use layout::areas;
use opening::OpenMap;
use printing::Page;
use tallying::{first_of, sides_of};

// Puts the pages of all areas, then the last line.
pub fn put_pages(map: OpenMap<'_>, sides: &[u16], firsts: &[u16], page: &mut Page)
    requires map_value { Tallied map.bytes.now sides.now firsts.now }
    requires in_bounds { (2049 ≤ length sides.now)
        × (2049 ≤ length firsts.now)
        × (page.old.at + 41853 ≤ length page.old.out.now) }
    ensures { Puts page.old (schedule map.entry.bytes.now) page.new }
{
    let mut sum = 0;
    for i in 0..areas(map.bytes) {
        let area = Area(i + 1);
        let count = sides_of(sides, area);
        let first = first_of(firsts, area);
        put_break(page, i);
        put_row(page, area, count, first);
        sum += count;
    }
    put_total(page, sum);
}
