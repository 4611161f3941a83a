// Finding marks: checks 1 to 4 and 21 in this order, then the marks of a spanning tree.
ghost use Rattle.std.specs.Prelude.{◌≡◌, ℕ, ◌*◌, length};
ghost use Rattle.answers.specs.Answer.{number_of};
ghost use Rattle.answers.specs.Means.{checks_mean};
ghost use Rattle.drawing.specs.Drawing.{lent};
ghost use Rattle.format.specs.Suggest.{Suggests};
ghost use Rattle.lending.specs.Lists.{Blank};
ghost use Rattle.checking.specs.Lent.{Ranged};
ghost use Rattle.suggesting.specs.Later.{SuggestsLater};

use answers::Refusal;

// Writes marks of a spanning tree. Where a check declines, they stay as they were. What they were is not read.
pub fn suggest(turning: &[u16], marks: &mut [u8], work: &mut [u16]) -> Result<(), Refusal>
    ensures { (s : ℕ) → Suggests (lent turning.now marks.old s)
        work.old work.new marks.new (number_of (checks_mean result)) }
{
    if !checking::lengths_fit(turning, marks) {
        return Err(Refusal::Lists);
    }
    let k = 6 * marks.len();
    if work.len() < k {
        return Err(Refusal::Room);
    }
    if !checking::entries_fit(turning) {
        return Err(Refusal::Range);
    }
    lending::clear(work, k);
    suggest_tree(turning, marks, work)
}

// Checks 4 and 21, and the marks. The working list is left as it was.
fn suggest_tree(turning: &[u16], marks: &mut [u8], work: &mut [u16]) -> Result<(), Refusal>
    requires { Ranged turning.now
        × (length turning.now ≡ 2 * length marks.old)
        × Blank (3 * length turning.now) work.old }
    ensures by_index { (s : ℕ) → SuggestsLater (lent turning.now marks.old s) marks.new (number_of (checks_mean result)) }
    ensures work_unchanged { work.new ≡ work.old }
{
    if !checking::is_distinct(turning, work) {
        return Err(Refusal::Repeated);
    }
    if !reaching::find_tree(turning, marks, work) {
        return Err(Refusal::Pieces);
    }
    Ok(())
}
