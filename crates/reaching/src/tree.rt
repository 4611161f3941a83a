// What the search tells: whether the marked borders join all points, and how many points there are; whether all borders do, and
// the marks of a tree. For the second it is lent no marks.
ghost use Rattle.std.specs.Prelude.{◌≡◌, List, ℕ, ◌+◌, ◌*◌, length, get_or, Some, None};
ghost use Rattle.count.specs.Below.{pick, table};
ghost use Rattle.answers.specs.Answer.{Kind};
ghost use Rattle.drawing.specs.Drawing.{cells, lent};
ghost use Rattle.drawing.specs.Checks.{joined};
ghost use Rattle.lending.specs.Lists.{Blank, Kept};
ghost use Rattle.checking.specs.Lent.{Turns};
ghost use Rattle.reaching.specs.Reaching.{borders_of, MarksAt, NotesTree, FindsTree};

use crate::search::spread;

// 5 and 6: how many points there are if the marked borders join them all.
pub fn joined_points(turning: &[u16], marks: &[u8], work: &mut [u16]) -> Option<usize>
    requires { Turns turning.now
        × (length turning.now ≡ 2 * length marks.now)
        × Blank (3 * length turning.now) work.old }
    ensures by_index { (s : ℕ) → result ≡ pick (joined (lent turning.now marks.now s))
        (Some (cells (lent turning.now marks.now s) Kind.point)) None }
    ensures work_unchanged { work.new ≡ work.old }
{
    let ends = turning.len();
    let reached = spread(turning, marks, work);
    lending::clear(work, 3 * ends);
    if reached.ends == ends {
        Some(reached.points)
    } else {
        None
    }
}

// 21: whether all borders join all points. If they do, the marks become those of a spanning tree; they are not read.
pub fn find_tree(turning: &[u16], marks: &mut [u8], work: &mut [u16]) -> bool
    requires { Turns turning.now
        × (length turning.now ≡ 2 * length marks.old)
        × Blank (3 * length turning.now) work.old }
    ensures by_index { (s : ℕ) → FindsTree (lent turning.now marks.old s) result marks.new }
    ensures work_unchanged { work.new ≡ work.old }
{
    let found = note_tree(turning, work);
    if found {
        write_marks(work, 2 * turning.len(), marks);
    }
    lending::clear(work, 3 * turning.len());
    found
}

// Whether all borders join all points. If they do, a spanning tree is noted in the working list's last third. No marks are lent:
// what is found holds whatever marks the drawing has.
fn note_tree(turning: &[u16], work: &mut [u16]) -> bool
    requires { Turns turning.now
        × (length turning.now ≡ 2 * borders_of turning.now)
        × Blank (3 * length turning.now) work.old }
    ensures by_index { (ms : List ℕ) (s : ℕ) → length turning.now ≡ 2 * length ms
        → NotesTree (lent turning.now ms s) result work.new }
    ensures kept { Kept (3 * length turning.now) work.old work.new }
{
    let reached = spread(turning, &[], work);
    reached.ends == turning.len()
}

// Writes a mark for each border, as the working list has it from an entry on.
fn write_marks(work: &[u16], from: usize, marks: &mut [u8])
    requires { MarksAt work.now from (length marks.old) }
    ensures { marks.new ≡ table (λ e. get_or work.now (from + e) 0) (length marks.old) }
{
    for (e, mark) in marks.iter_mut().enumerate() {
        *mark = work[from + e] as u8;
    }
}
