// Packing, then a session on what was packed.
ghost use Rattle.drawing.specs.Drawing.{lent};
ghost use Rattle.demands.specs.Rehearsal.{Rehearses};

use answers::{Place, Refusal, Rehearsal};

// Packs the drawing into `out`, then runs the calls on the map, from the first number on.
pub fn rehearse(
    turning: &[u16],
    marks: &[u8],
    start: usize,
    work: &mut [u16],
    out: &mut [u8],
    first: Place,
    calls: &[u8],
    statuses: &mut [u8],
    answers: &mut [u16],
) -> Result<Rehearsal, Refusal>
    ensures { Rehearses (lent turning.now marks.now start) first.0 calls.now result
        (record { work = work.old; out = out.old; statuses = statuses.old; answers = answers.old })
        (record { work = work.new; out = out.new; statuses = statuses.new; answers = answers.new }) }
{
    let length = packing::pack(turning, marks, start, work, out)?;
    let left = sessions::session(&out[..length], first, calls, statuses, answers);
    Ok(Rehearsal { length, left })
}
