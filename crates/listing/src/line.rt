// One line of a listing: what it says, and its text.
ghost use Rattle.std.specs.Prelude.{◌+◌, ◌≤◌, length};
ghost use Rattle.printing.specs.Writing.{Puts};
ghost use Rattle.listing.specs.Lines.{Short, line_text};

use answers::{Area, Place, Point};
use printing::Page;

// What the line of a place says. `bracket` is the byte of its kind.
#[derive(Clone, Copy)]
pub struct Line {
    pub place: Place,
    pub bracket: u8,
    pub mate: Place,
    pub node: Point,
    pub area: Area,
}

// Puts the text of a line, at most 22 bytes.
pub fn put_line(page: &mut Page, line: Line)
    requires { Short line × (page.old.at + 22 ≤ length page.old.out.now) }
    ensures { Puts page.old (line_text line) page.new × (page.new.at ≤ page.old.at + 22) }
{
    page.number(line.place.0, b' ');
    page.byte(line.bracket);
    page.byte(b' ');
    page.number(line.mate.0, b' ');
    page.number(line.node.0, b' ');
    page.number(line.area.0, b'\n');
}
