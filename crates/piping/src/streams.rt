// What a program is given on standard input, and what it prints.
ghost use Rattle.std.specs.Prelude.{◌≡◌, ◌<◌, ◌≤◌, pos, length, take, [], IsTrue};
ghost use Rattle.std.specs.Io.KnownBytes.{Consumes, IsAtEnd};
ghost use Rattle.piping.specs.Input.{got_of, next_of};

use std::io::{Read, Write};

// The input was not read to its end: after `got` bytes a read failed.
#[derive(Clone, Copy, Debug, PartialEq, Eq)]
pub struct Cut {
    pub got: usize,
}

// Fills `bytes` from the reader until the input ends or `bytes` is full. How many bytes were read, where the input ended, and
// where `bytes` is full and nothing more is read.
pub fn read_input<R: Read>(from: &mut R, bytes: &mut [u8]) -> Result<usize, Cut>
    ensures fits { got_of result ≤ length bytes.new }
    ensures prefix_len { got_of result ≡ length (take (got_of result) bytes.new) }
    ensures next_value { got_of result ≡ length bytes.new → next_of result ≡ pos 0 }
    ensures bytes { next_of result ≡ pos 0 →
        Consumes (R.remaining from.old) (R.remaining from.new) (take (got_of result) bytes.new) }
    ensures end { next_of result ≡ pos 0 → got_of result < length bytes.new → IsAtEnd (R.remaining from.new) }
{
    let got = read_full(from, bytes);
    if got == bytes.len() || is_at_end(from) {
        return Ok(got);
    }
    Err(Cut { got })
}

// Writes a text to `output`; where that can't be done, says so to `errors`, after the program's name.
pub fn print<O: Write, E: Write>(output: &mut O, errors: &mut E, text: &[u8], name: &[u8]) {
    if output.write_all(text).is_err() {
        let _ = errors.write_all(name);
        let _ = errors.write_all(b": standard output can't be written\n");
    }
}

// Reads until `bytes` is full, the input ends or a read fails. How many bytes were read: a read may give any number of them.
fn read_full<R: Read>(from: &mut R, bytes: &mut [u8]) -> usize
    ensures fits { result ≤ length bytes.new }
    ensures prefix_len { result ≡ length (take result bytes.new) }
    ensures bytes { Consumes (R.remaining from.old) (R.remaining from.new) (take result bytes.new) }
{
    let mut done = 0;
    while done < bytes.len() {
        match from.read(&mut bytes[done..]) {
            Ok(0) => break,
            Ok(n) => done += n,
            Err(_) => break,
        }
    }
    done
}

// `read_full` stops where the input ends and where a read fails: one read more tells them apart.
fn is_at_end<R: Read>(from: &mut R) -> bool
    ensures bytes { IsTrue result → Consumes (R.remaining from.old) (R.remaining from.new) [] }
    ensures end { IsTrue result → IsAtEnd (R.remaining from.new) }
{
    matches!(from.read(&mut [0]), Ok(0))
}
