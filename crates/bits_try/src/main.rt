// Runs every function of `bits` and `matching` on a string of 512 bytes, taken as strings of 0 to 4,200 bits, and
// writes a line for each length n: the rank of n % 3 at n and the position of the n / 4th; whether
// every bit from n on is 0; the n % 30 bits from n on as a number, and how many are n % 3; byte n / 8; how many bytes
// n bits take, and the lesser of n and 1,000; bit n / 2, its partner and the bracket open before it; whether the n bits
// are balanced; what a scan from n / 2 on leaves, to n with n / 8 that wait, and over n % 24 brackets with n / 2;
// whether entry 8 of a list of sevens is 0 once the first n are cleared. stdin has the string, and stdout what
// expected.py works out.
#![tactic(auto)]

use std::io::{self, Read};

fn main(rt: HostRuntime) -> io::Result<()> {
    let mut s = [0u8; 512];
    rt.stdin().chain(io::repeat(0)).read_exact(&mut s)?;
    bits::set_bit(&mut s, 2000, true);
    bits::set_bit(&mut s, 1000, false);
    lines(&rt, &s)
}

// Every length to 32, and then by longer steps: the step grows with n, so no range has these lengths.
fn lines(rt: &impl Print, s: &[u8]) -> io::Result<()> {
    let mut n = 0;
    while n <= 4200 {
        counts(rt, s, n, n % 3)?;
        runs(rt, s, n, n % 3, n % 30)?;
        brackets(rt, s, n, n / 2)?;
        scan(rt, s, n, n / 2, n / 8)?;
        scan(rt, s, n / 2 + n % 24, n / 2, n / 2)?;
        cleared(rt, n)?;
        n += 1 + n / 32;
    }
    Ok(())
}

fn counts(rt: &impl Print, s: &[u8], n: usize, v: usize) -> io::Result<()> {
    show(rt, bits::rank(s, v, n))?;
    show(rt, bits::select(s, v, n, n / 4))?;
    show(rt, usize::from(bits::unused_zero(s, n)))
}

fn runs(rt: &impl Print, s: &[u8], n: usize, v: usize, w: usize) -> io::Result<()> {
    show(rt, bits::field(s, n, w))?;
    show(rt, bits::count_in(s, v, n, w))?;
    show(rt, bits::byte(s, n / 8))?;
    show(rt, bits::bytes_for(n))?;
    show(rt, n.min(1000))
}

fn brackets(rt: &impl Print, s: &[u8], n: usize, i: usize) -> io::Result<()> {
    show(rt, bits::bit(s, i))?;
    show(rt, matching::partner(s, n, i))?;
    show(rt, matching::enclosing(s, i))?;
    show(rt, usize::from(matching::is_balanced(s, n)))
}

fn scan(rt: &impl Print, s: &[u8], n: usize, p: usize, d: usize) -> io::Result<()> {
    let rest = matching::ahead(s, n, p, d);
    show(rt, rest.left)?;
    show(rt, rest.depth)
}

fn cleared(rt: &impl Print, k: usize) -> io::Result<()> {
    let mut list = [7u16; 16];
    lending::clear(&mut list, k);
    show(rt, usize::from(list[8] == 0))?;
    println!(rt;)
}

fn show(rt: &impl Print, x: usize) -> io::Result<()> {
    print!(rt; "{x} ")
}
