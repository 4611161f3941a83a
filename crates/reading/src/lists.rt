// Reading the whole text: one pass to count its borders, one to write the lists.
ghost use Rattle.std.specs.Prelude.{◌≡◌, length};
ghost use Rattle.std.proofs.Math.Option.{none};
ghost use Rattle.answers.specs.Answer.{told};
ghost use Rattle.answers.specs.Lent.{laid, leaves};
ghost use Rattle.answers.specs.Means.{parsed_means};
ghost use Rattle.drawing.specs.Drawing.{most_borders, most_ends, borders, Drawing};
ghost use Rattle.text.specs.Input.{drawing_or17, read_lines, read_text};
ghost use Rattle.reading.specs.Found.{count_means};

use crate::lines::line;
use answers::Refusal;
use format::{MOST_BORDERS, MOST_ENDS};

// Writes the drawing of the text and answers m, or declines with 17.
pub fn parse(
    text: &[u8],
    turning: &mut [u16; MOST_ENDS],
    marks: &mut [u8; MOST_BORDERS],
) -> Result<usize, Refusal>
    ensures result_value { parsed_means result ≡ told borders (read_text text.now) }
    ensures turning_after { turning.new ≡ leaves (λ (D : Drawing). laid D.turning) (read_text text.now) turning.old }
    ensures marks_after { marks.new ≡ leaves (λ (D : Drawing). laid D.marks) (read_text text.now) marks.old }
{
    let Some(lines) = text.strip_prefix(b"border first second mark\n") else {
        return Err(Refusal::Text);
    };
    let Some(m) = count_lines(lines) else {
        return Err(Refusal::Text);
    };
    write_lines(lines, turning, marks);
    Ok(m)
}

// How many lines of borders the text has, if it has nothing else. Where a line ends only reading it tells.
fn count_lines(text: &[u8]) -> Option<usize>
    ensures { count_means result ≡ told borders (drawing_or17 (read_lines most_borders 0 text.now)) }
{
    let mut rest = text;
    let mut e = 0;
    while !rest.is_empty() {
        if e == MOST_BORDERS {
            return None;
        }
        let row = line(rest, e)?;
        rest = row.rest;
        e += 1;
    }
    Some(e)
}

// Writes the entries and the marks of the lines of a text. All of them are well formed, so that no line is missing before its end.
fn write_lines(text: &[u8], turning: &mut [u16], marks: &mut [u8])
    requires { (read_lines most_borders 0 text.now ≡ none → ⊥)
        × (length turning.old ≡ most_ends)
        × (length marks.old ≡ most_borders) }
    ensures turning_after { turning.new
        ≡ leaves (λ (D : Drawing). laid D.turning) (drawing_or17 (read_lines most_borders 0 text.now)) turning.old }
    ensures marks_after { marks.new
        ≡ leaves (λ (D : Drawing). laid D.marks) (drawing_or17 (read_lines most_borders 0 text.now)) marks.old }
{
    let mut rest = text;
    let mut e = 0;
    while let Some(row) = line(rest, e) {
        turning[2 * e] = row.first;
        turning[2 * e + 1] = row.second;
        marks[e] = row.mark;
        rest = row.rest;
        e += 1;
    }
}
