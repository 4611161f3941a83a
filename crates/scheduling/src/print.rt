// The whole text: a schedule, or the line of a refusal. It is put as a listing is; one function over what is put would be longer.
ghost use Rattle.std.specs.Prelude.{◌≡◌, length};
ghost use Rattle.answers.specs.Lent.{laid};
ghost use Rattle.printing.specs.Writing.{Wrote};
ghost use Rattle.tallying.specs.Tallied.{Tallied};
ghost use Rattle.text.specs.Listing.{refused_line};
ghost use Rattle.text.specs.Schedule.{schedule, schedule_of};

use crate::pages::put_pages;
use opening::{OpenMap, open_map};
use printing::Page;
use tallying::{MOST_AREAS, tally};

// The room of the longest schedule: 2,049 lines and 41 headings of 20 bytes, 40 empty lines, and the last line.
pub const ROOM: usize = 20 * MOST_AREAS + 41 * 20 + 40 + 13;

// The schedule of the map, or the line of the check that declines it. The text's length.
pub fn schedule(map: &[u8], out: &mut [u8; ROOM]) -> usize
    ensures value { result ≡ length (schedule_of map.now) }
    ensures out_after { out.new ≡ laid (schedule_of map.now) out.old }
{
    match open_map(map) {
        Ok(open) => put_schedule(open, out),
        Err(e) => refused(u8::from(e), out),
    }
}

// The line of refusal k. Its length. A function beside `printing::refused`, since that one asks for the room of a line and this, a name
// of docs/AUDIT.md, asks nothing.
pub fn refused(k: u8, out: &mut [u8; ROOM]) -> usize
    ensures value { result ≡ length (refused_line k) }
    ensures out_after { out.new ≡ laid (refused_line k) out.old }
{
    printing::refused(k, out)
}

// The schedule of a map that opens.
fn put_schedule(map: OpenMap<'_>, out: &mut [u8; ROOM]) -> usize
    ensures { Wrote out.old 0 (schedule map.entry.bytes.now) result out.new }
{
    let mut sides = [0u16; MOST_AREAS];
    let mut firsts = [0u16; MOST_AREAS];
    tally(map.bytes, &mut sides, &mut firsts);
    put_tallied(map, &sides, &firsts, out)
}

// The schedule from the sides and the first places of its areas.
fn put_tallied(
    map: OpenMap<'_>,
    sides: &[u16; MOST_AREAS],
    firsts: &[u16; MOST_AREAS],
    out: &mut [u8; ROOM],
) -> usize
    requires { Tallied map.bytes.now sides.now firsts.now }
    ensures { Wrote out.old 0 (schedule map.entry.bytes.now) result out.new }
{
    let mut page = Page::new(out);
    put_pages(map, sides, firsts, &mut page);
    page.at
}
