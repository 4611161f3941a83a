// Runs packing and opening at their limits, and writes a line for each: what was tried, the number of the refusal or 0, and
// the length of the map or its borders and points.
#![tactic(auto)]

use answers::Refusal;
use format::{AT_AREAS, AT_M, AT_N, LONGEST};
use std::io;

// The drawings tried: one point with loops, one point with dangling borders, and loops with a single dangling border.
#[derive(Clone, Copy)]
enum Shape {
    Loops,
    Star,
    Mixed,
}

const SHORT: usize = LONGEST - 1;

fn main(rt: HostRuntime) -> io::Result<()> {
    most_borders(&rt, Shape::Loops)?;
    most_borders(&rt, Shape::Star)?;
    most_borders(&rt, Shape::Mixed)?;
    one_too_many(&rt)
}

// 2,048 borders: n is 1, m+1 and 2; the last gives the longest map.
fn most_borders(rt: &impl Print, shape: Shape) -> io::Result<()> {
    let mut turning = [0u16; 4096];
    let mut marks = [0u8; 2048];
    fill_turning(&mut turning, shape);
    fill_marks(&mut marks, shape);
    let mut out = [0u8; LONGEST];
    show_packed(rt, &turning, &marks, &mut out)?;
    show_part(rt, &out, SHORT)?;
    show_opened(rt, &out)?;
    out[AT_AREAS] = 7; // no drawing of these has so many areas
    show_part(rt, &out, SHORT)?;
    out[AT_N] = 2;
    out[AT_N + 1] = 8; // n = 2,050 = m + 2
    show_part(rt, &out, SHORT)?;
    out[AT_M] = 1; // m = 2,049
    show_part(rt, &out, SHORT)
}

// A turning list of 4,098 entries and 2,049 marks.
fn one_too_many(rt: &impl Print) -> io::Result<()> {
    let turning = [0u16; 4098];
    let marks = [0u8; 2049];
    let mut out = [0u8; LONGEST];
    show_packed(rt, &turning, &marks, &mut out)
}

// The turning list. Border e has its even end at the one point, and its odd end there too or at a point of its own.
fn fill_turning(turning: &mut [u16], shape: Shape) {
    for (h, x) in turning.iter_mut().enumerate() {
        *x = entry(shape, h);
    }
}

fn fill_marks(marks: &mut [u8], shape: Shape) {
    for (e, mark) in marks.iter_mut().enumerate() {
        *mark = u8::from(dangles(shape, e));
    }
}

// The entry of end h.
fn entry(shape: Shape, h: usize) -> u16 {
    if !dangles(shape, h / 2) {
        return ((h % 4096 + 1) % 4096) as u16;
    }
    if h % 2 == 1 {
        return (h % 4096) as u16;
    }
    ((h % 4096 + 2) % 4096) as u16
}

fn dangles(shape: Shape, e: usize) -> bool {
    match shape {
        Shape::Loops => false,
        Shape::Star => true,
        Shape::Mixed => e == 5,
    }
}

fn show_packed(rt: &impl Print, turning: &[u16], marks: &[u8], out: &mut [u8]) -> io::Result<()> {
    let mut work = [0u16; 12288];
    print!(rt; "pack ")?;
    match packing::pack(turning, marks, 0, &mut work, out) {
        Ok(k) => show(rt, 0, k, 0),
        Err(Refusal::Crossing(a, b)) => show(rt, 7, a, b),
        Err(e) => show(rt, u8::from(e), 0, 0),
    }
}

fn show_opened(rt: &impl Print, map: &[u8]) -> io::Result<()> {
    print!(rt; "open ")?;
    match opening::open(map) {
        Ok(size) => show(rt, 0, size.m, size.n),
        Err(e) => show(rt, u8::from(e), 0, 0),
    }
}

// Opens the first k bytes, or all where there are fewer.
fn show_part(rt: &impl Print, map: &[u8], k: usize) -> io::Result<()> {
    if k < map.len() {
        show_opened(rt, &map[0..k])
    } else {
        show_opened(rt, map)
    }
}

fn show(rt: &impl Print, number: u8, a: usize, b: usize) -> io::Result<()> {
    println!(rt; "{number} {a} {b}")
}
