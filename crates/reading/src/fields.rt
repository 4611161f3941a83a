// Numbers that a text begins with.
ghost use Rattle.std.specs.Prelude.{◌≡◌, ◌≤◌};
ghost use Rattle.text.specs.Decimal.{read_digits};
ghost use Rattle.text.specs.Input.{read_field};
ghost use Rattle.reading.specs.Found.{field_means, read_digit, within, read_within};

use crate::parts::Field;

// A number of at most `most`, and the byte `end` after it.
pub fn field(text: &[u8], most: usize, end: u8) -> Option<Field<'_>>
    requires { most ≤ 65535 }
    ensures { field_means result ≡ read_field most end text.now }
{
    let number = number(text, most)?;
    let rest = number.rest.strip_prefix(&[end])?;
    Some(Field {
        value: number.value,
        rest,
    })
}

// The number that a text begins with, if it is at most `most`. A 0 stands alone.
fn number(text: &[u8], most: usize) -> Option<Field<'_>>
    requires { most ≤ 65535 }
    ensures { field_means result ≡ read_within most text.now }
{
    let first = digit(text)?;
    if 0 < first.value {
        return digits(first.rest, first.value, most);
    }
    Some(first)
}

// The number x, followed by the digits that a text begins with, if it is at most `most`. It never gets smaller
// by a digit more, so the first value above `most` decides. Where the digits end only reading them tells.
fn digits(text: &[u8], x: usize, most: usize) -> Option<Field<'_>>
    requires { (most ≤ 65535) × (x ≤ 9) }
    ensures { field_means result ≡ within most (read_digits text.now x) }
{
    let mut value = x;
    let mut rest = text;
    while value <= most {
        let Some(next) = digit(rest) else {
            return Some(Field { value, rest });
        };
        value = 10 * value + next.value;
        rest = next.rest;
    }
    None
}

// The digit that a text begins with.
fn digit(text: &[u8]) -> Option<Field<'_>>
    ensures { field_means result ≡ read_digit text.now }
{
    match text {
        [c @ b'0'..=b'9', rest @ ..] => Some(Field {
            value: usize::from(c - b'0'),
            rest,
        }),
        _ => None,
    }
}
