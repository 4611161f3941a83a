// The text is read, its drawing is packed, and the map is listed.
ghost use Rattle.std.specs.Prelude.{◌≡◌, length};
ghost use Rattle.answers.specs.Lent.{laid};
ghost use Rattle.answers.specs.Answer.{answer};
ghost use Rattle.drawing.specs.Drawing.{lent};
ghost use Rattle.text.specs.Listing.{listed, packed, places_of};

use format::{LONGEST, MOST_BORDERS, MOST_ENDS};
use listing::ROOM;

// The working list that packing asks for the most borders.
const WORKING: usize = 6 * MOST_BORDERS;

// What `places` prints for the text. Its length.
pub fn places(text: &[u8], out: &mut [u8; ROOM]) -> usize
    ensures value { result ≡ length (places_of text.now) }
    ensures out_after { out.new ≡ laid (places_of text.now) out.old }
{
    let mut turning = [0u16; MOST_ENDS];
    let mut marks = [0u8; MOST_BORDERS];
    match reading::parse(text, &mut turning, &mut marks) {
        Ok(m) => places_of(&turning[..2 * m], &marks[..m], out),
        Err(e) => listing::refused(u8::from(e), out),
    }
}

// What is printed for a drawing that starts at 0: the listing of its map, or the line of the check that declines it.
fn places_of(turning: &[u16], marks: &[u8], out: &mut [u8; ROOM]) -> usize
    ensures value { result ≡ length (listed (packed (answer (lent turning.now marks.now 0)))) }
    ensures out_after { out.new
        ≡ laid (listed (packed (answer (lent turning.now marks.now 0)))) out.old }
{
    let mut work = [0u16; WORKING];
    let mut map = [0u8; LONGEST];
    match packing::pack(turning, marks, 0, &mut work, &mut map) {
        Ok(n) => listing::list(&map[..n], out),
        Err(refusal) => listing::refused(u8::from(refusal), out),
    }
}
