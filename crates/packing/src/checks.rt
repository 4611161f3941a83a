// Packing: checks 1 to 7 in the order of document 01's table, then the map.
ghost use Rattle.std.specs.Prelude.{◌≡◌, ◌*◌, ◌≤◌, length};
ghost use Rattle.answers.specs.Means.{packed_means};
ghost use Rattle.answers.specs.Answer.{Kind};
ghost use Rattle.drawing.specs.Drawing.{cells, lent};
ghost use Rattle.drawing.specs.Checks.{LengthsFit, InRange, PassesSix};
ghost use Rattle.format.specs.Bytes.{longest};
ghost use Rattle.format.specs.Packs.{Packs};
ghost use Rattle.lending.specs.Lists.{Blank, Kept};
ghost use Rattle.checking.specs.Lent.{drawn};
ghost use Rattle.packing.specs.Later.{PacksLater};

use answers::Refusal;
use checking::Lent;
use format::LONGEST;

// Packs a drawing into `out`. Where a check declines, `out` stays as it was.
pub fn pack(
    turning: &[u16],
    marks: &[u8],
    start: usize,
    work: &mut [u16],
    out: &mut [u8],
) -> Result<usize, Refusal>
    ensures { Packs (lent turning.now marks.now start)
        work.old work.new out.old out.new (packed_means result) }
{
    if !checking::lengths_fit(turning, marks) {
        return Err(Refusal::Lists);
    }
    let k = 6 * marks.len();
    if work.len() < k {
        return Err(Refusal::Room);
    }
    if out.len() < LONGEST {
        return Err(Refusal::Room);
    }
    let drawing = Lent {
        turning,
        marks,
        start,
    };
    if !drawing.in_range() {
        return Err(Refusal::Range);
    }
    lending::clear(work, k);
    let packed = checked(&drawing, work, out);
    lending::clear(work, k); // and after every answer from here on
    packed
}

// Checks 4 to 6, and the rest.
fn checked(drawing: &Lent, work: &mut [u16], out: &mut [u8]) -> Result<usize, Refusal>
    requires { LengthsFit (drawn drawing.now)
        × InRange (drawn drawing.now)
        × Blank (3 * length drawing.now.turning.now) work.old
        × (longest ≤ length out.old) }
    ensures packs_later { PacksLater (drawn drawing.now) (packed_means result) out.old out.new }
    ensures kept { Kept (6 * length drawing.now.marks.now) work.old work.new }
{
    if !checking::is_distinct(drawing.turning, work) {
        return Err(Refusal::Repeated);
    }
    let Some(n) = reaching::joined_points(drawing.turning, drawing.marks, work) else {
        return Err(Refusal::Apart);
    };
    if n <= checking::count_marks(drawing.marks) {
        return Err(Refusal::ManyMarks);
    }
    finish(drawing, n, work, out)
}

// Check 7, and the map of a drawing that passes.
fn finish(drawing: &Lent, n: usize, work: &mut [u16], out: &mut [u8]) -> Result<usize, Refusal>
    requires { PassesSix (drawn drawing.now)
        × (n ≡ cells (drawn drawing.now) Kind.point)
        × Blank (3 * length drawing.now.turning.now) work.old
        × (longest ≤ length out.old) }
    ensures packs_later { PacksLater (drawn drawing.now) (packed_means result) out.old out.new }
    ensures kept { Kept (6 * length drawing.now.marks.now) work.old work.new }
{
    touring::tour(drawing, work);
    touring::seconds(work, 2 * drawing.marks.len());
    match crossing::find_crossing(drawing.marks, work) {
        Some((a, b)) => Err(Refusal::Crossing(a, b)),
        None => Ok(writing::write_map(drawing.marks, n, work, out)),
    }
}
