// The map's bytes: the header, then A, B and B*, each from a fresh byte, a letter at a time.
ghost use Rattle.std.specs.Prelude.{◌≡◌, ◌+◌, ◌*◌, ◌<◌, ◌≤◌, length};
ghost use Rattle.count.specs.Below.{pick};
ghost use Rattle.answers.specs.Lent.{laid};
ghost use Rattle.words.specs.declared.family.Family.TheVariants.{Round as round, Square as square};
ghost use Rattle.drawing.specs.Drawing.{most_borders, most_ends};
ghost use Rattle.format.specs.Bytes.{longest, header, header_of, start_b, map_length};
ghost use Rattle.lettering.specs.Lettering.{begun, with_letter, with_two};

use bits::bytes_for;
use format::{AT_AREAS, AT_M, AT_N, HEADER};
use lending::clear;

// A map on the way: at which bytes B and B* begin and the map ends, the position of the next letter, and how many letters before
// it are round.
#[derive(Clone, Copy)]
pub struct Letters {
    pub b: usize,
    pub c: usize,
    pub end: usize,
    pub p: usize,
    pub rounds: usize,
}

// Begins a map of m borders and n points: zeros, and the header.
pub fn begin_map(out: &mut [u8], m: usize, n: usize) -> Letters
    requires { (longest ≤ length out.old) × (m ≤ most_borders) × (1 ≤ n) × (n ≤ m + 1) }
    ensures out_after { out.new ≡ begun (record { m = m; n = n }) out.old }
    ensures b_value { (result.b ≡ start_b round (record { m = m; n = n })) × (result.c ≡ start_b square (record { m = m; n = n }))
        × (result.end ≡ map_length (record { m = m; n = n })) }
    ensures at_first { (result.p ≡ 0) × (result.rounds ≡ 0) }
{
    let b = HEADER + bytes_for(2 * m);
    let c = b + bytes_for(2 * n - 2);
    let end = c + bytes_for(2 * (m + 1 - n));
    clear(out, end);
    write_header(out, m, n);
    Letters {
        b,
        c,
        end,
        p: 0,
        rounds: 0,
    }
}

impl Letters {
    // Puts the next letter: its family to A, whether it closes to B or B*. What is written where is chosen by numbers and not by a
    // jump, which random families would make slow.
    pub fn put_letter(&mut self, out: &mut [u8], marked: bool, closing: bool)
        requires { (self.old.b ≤ longest) × (self.old.c ≤ longest) × (self.old.p < most_ends) × (self.old.rounds ≤ self.old.p) }
        ensures out_after { out.new ≡ with_letter out.old self.old.b self.old.c self.old.p self.old.rounds marked closing }
        ensures value { self.new ≡ record self.old { p = self.old.p + 1; rounds = pick marked (self.old.rounds + 1) self.old.rounds } }
    {
        bits::set_bit(out, 8 * HEADER + self.p, marked);
        let at = chosen(
            marked,
            8 * self.b + self.rounds,
            8 * self.c + (self.p - self.rounds),
        );
        bits::set_bit(out, at, closing);
        self.rounds = chosen(marked, self.rounds + 1, self.rounds);
        self.p += 1;
    }
}

// The header: m, n and the count of areas.
fn write_header(out: &mut [u8], m: usize, n: usize)
    requires { (header ≤ length out.old) × (m ≤ most_borders) × (n ≤ m + 1) }
    ensures { out.new ≡ laid (header_of (record { m = m; n = n })) out.old }
{
    let areas = m + 2 - n;
    put_two(out, AT_M, m);
    put_two(out, AT_N, n);
    put_two(out, AT_AREAS, areas);
}

// x in the two bytes at i, low byte first.
fn put_two(out: &mut [u8], i: usize, x: usize)
    requires { i + 1 < length out.old }
    ensures { out.new ≡ with_two out.old i x }
{
    out[i] = (x % 256) as u8;
    out[i + 1] = (x / 256 % 256) as u8;
}

fn chosen(v: bool, a: usize, b: usize) -> usize
    ensures { result ≡ pick v a b }
{
    if v { a } else { b }
}
