// The listing of a map for a C host: what `listing::list` writes, and the length of the text.
//
// Conventions. The memory lent has the room of the longest listing, and the text stands at its start; the bytes after it
// stay as they were. The function asks nothing of its caller, and is not in include/pmap.h.
#![tactic(auto)]

ghost use Rattle.std.specs.Prelude.{◌≡◌, length};
ghost use Rattle.answers.specs.Lent.{laid};
ghost use Rattle.text.specs.Listing.{printed};

use listing::ROOM;

// The listing of the map, or the line of the check that declines it. The text's length.
#[unsafe(no_mangle)]
pub extern "C" fn pmap_listing_text(map: &[u8], out: &mut [u8; ROOM]) -> usize
    ensures value { result ≡ length (printed map.now) }
    ensures out_after { out.new ≡ laid (printed map.now) out.old }
{
    listing::list(map, out)
}
