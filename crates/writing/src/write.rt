// The map's bytes, a letter for each position of the tour.
ghost use Rattle.std.specs.Prelude.{◌≡◌, ◌*◌, ◌<◌, ◌≤◌, length};
ghost use Rattle.answers.specs.Lent.{laid};
ghost use Rattle.words.specs.Word.{same_family};
ghost use Rattle.words.specs.declared.family.Family.TheVariants.{Round as round};
ghost use Rattle.format.specs.Bytes.{longest};
ghost use Rattle.writing.specs.Writing.{word_at, chart_bytes, Legible, Sized};

use lettering::begin_map;
use touring::border_in;

// Writes the map of the chart in `work`, with n points, in one pass over the positions. Its length.
pub fn write_map(marks: &[u8], n: usize, work: &[u16], out: &mut [u8]) -> usize
    requires { Legible marks.now work.now × Sized n marks.now work.now × (longest ≤ length out.old) }
    ensures value { result ≡ length (chart_bytes n marks.now work.now) }
    ensures out_after { out.new ≡ laid (chart_bytes n marks.now work.now) out.old }
{
    let m = marks.len();
    let mut letters = begin_map(out, m, n);
    for p in 0..2 * m {
        letters.put_letter(out, is_round(marks, work, p), work[2 * m + p] == 1);
    }
    letters.end
}

// Whether the letter at position p is round: its border is marked.
fn is_round(marks: &[u8], work: &[u16], p: usize) -> bool
    requires { Legible marks.now work.now × (p < 2 * length marks.now) }
    ensures { result ≡ same_family round ((word_at marks.now work.now).letter p).family }
{
    marks[border_in(work, p)] == 1
}
