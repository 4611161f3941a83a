// The lines of the text.
ghost use Rattle.std.specs.Prelude.{◌≡◌};
ghost use Rattle.text.specs.Input.{read_line};
ghost use Rattle.reading.specs.Found.{row_means, read_entries};

use crate::fields::field;
use crate::parts::Row;

const SPACE: u8 = b' ';

const LINE_FEED: u8 = b'\n';

// The line of border e that a text begins with.
pub fn line(text: &[u8], e: usize) -> Option<Row<'_>>
    ensures { row_means result ≡ read_line e text.now }
{
    let number = field(text, 65535, SPACE)?;
    if number.value != e {
        return None;
    }
    entries(number.rest)
}

// The entries of a border's two ends and its mark: what follows its number in a line.
fn entries(text: &[u8]) -> Option<Row<'_>>
    ensures { row_means result ≡ read_entries text.now }
{
    let first = field(text, 65535, SPACE)?;
    let second = field(first.rest, 65535, SPACE)?;
    let mark = field(second.rest, 255, LINE_FEED)?;
    Some(Row {
        first: first.value as u16,
        second: second.value as u16,
        mark: mark.value as u8,
        rest: mark.rest,
    })
}
