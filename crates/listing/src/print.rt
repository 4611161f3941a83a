// The whole text: a listing, or the line of a refusal.
ghost use Rattle.std.specs.Prelude.{◌≡◌, ◌≤◌, length};
ghost use Rattle.answers.specs.Lent.{laid};
ghost use Rattle.printing.specs.Writing.{Wrote};
ghost use Rattle.text.specs.Listing.{listing, refused_line, printed};

use crate::lines::put_lines;
use format::MOST_ENDS;
use opening::{OpenMap, open_map};
use printing::Page;

// The room of the longest listing: the heading, and 4,096 lines of at most 22 bytes.
pub const ROOM: usize = 26 + MOST_ENDS * 22;

// The listing of the map, or the line of the check that declines it. The text's length.
pub fn list(map: &[u8], out: &mut [u8; ROOM]) -> usize
    ensures value { result ≡ length (printed map.now) }
    ensures out_after { out.new ≡ laid (printed map.now) out.old }
{
    match open_map(map) {
        Ok(open) => put_listing(open, out),
        Err(e) => refused(u8::from(e), out),
    }
}

// The line of refusal k. Its length. A function beside `printing::refused`, since that one asks for the room of a line and this, a name
// of docs/AUDIT.md, asks nothing.
pub fn refused(k: u8, out: &mut [u8; ROOM]) -> usize
    ensures value { result ≡ length (refused_line k) }
    ensures out_after { out.new ≡ laid (refused_line k) out.old }
{
    printing::refused(k, out)
}

// The heading, then the lines of all places.
fn put_listing(map: OpenMap<'_>, out: &mut [u8]) -> usize
    requires { 90138 ≤ length out.old }
    ensures { Wrote out.old 0 (listing map.entry.bytes.now) result out.new }
{
    let mut page = Page::new(out);
    page.text(b"place kind mate node area\n");
    put_lines(map, &mut page);
    page.at
}
