// A program that reads its standard input and prints what it makes of it.
ghost use Rattle.std.specs.Prelude.{◌≡◌, ◌≤◌, List, ℕ, length, take};
ghost use Rattle.answers.specs.Lent.{laid};
ghost use Rattle.text.specs.Heard.{heard};
ghost use Rattle.piping.specs.Input.{got_of, next_of};

use crate::streams::{Cut, print, read_input};
use std::io::{Read, Write};

// What a program prints, in at most ROOM bytes: `whole` makes it of an input that was read to its end, and `cut` stands for any other.
pub trait Program<const ROOM: usize> {
    ghost whole: { List ℕ → List ℕ };

    ghost cut: { List ℕ };

    // Puts what is printed for the bytes that were read into `bytes` at the start of `out`. Its length.
    fn respond(bytes: &[u8], read: Result<usize, Cut>, out: &mut [u8; ROOM]) -> usize
        requires { got_of read ≤ length bytes.now }
        ensures within { result ≤ ROOM }
        ensures value { result ≡ length (heard (next_of read) (whole (take (got_of read) bytes.now)) cut) }
        ensures out_after { out.new ≡ laid (heard (next_of read) (whole (take (got_of read) bytes.now)) cut) out.old };
}

// Reads the input until it ends or `bytes` is full, and prints what the program P makes of it in `out`.
pub fn run<const ROOM: usize, P: Program<ROOM>>(
    input: &mut impl Read,
    output: &mut impl Write,
    errors: &mut impl Write,
    name: &[u8],
    bytes: &mut [u8],
    out: &mut [u8; ROOM],
) {
    let read = read_input(input, bytes);
    let n = P::respond(bytes, read, out);
    print(output, errors, &out[..n], name);
}
