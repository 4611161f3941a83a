// The schedule of a map's areas for a C host: what `scheduling::schedule` writes, and the length of the text.
//
// Conventions. The memory lent has the room of the longest schedule, and the text stands at its start; the bytes after it
// stay as they were. The function asks nothing of its caller, and is not in include/pmap.h.
#![tactic(auto)]

ghost use Rattle.std.specs.Prelude.{◌≡◌, length};
ghost use Rattle.answers.specs.Lent.{laid};
ghost use Rattle.text.specs.Schedule.{schedule_of};

use scheduling::ROOM;

// The schedule of the map, or the line of the check that declines it. The text's length.
#[unsafe(no_mangle)]
pub extern "C" fn pmap_schedule_text(map: &[u8], out: &mut [u8; ROOM]) -> usize
    ensures value { result ≡ length (schedule_of map.now) }
    ensures out_after { out.new ≡ laid (schedule_of map.now) out.old }
{
    scheduling::schedule(map, out)
}
