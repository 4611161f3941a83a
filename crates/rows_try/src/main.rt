// Runs the examples of document 01's table, rows 1 to 17, and of 20 and 21, and writes for each its number and the number that came:
// they are the same in every line. Then the drawings of (a) to (c), which are accepted: 0.
#![tactic(auto)]

use answers::{Area, Place, Point, Refusal};
use format::LONGEST;
use std::io;

const SHORT: usize = LONGEST - 1;

fn main(rt: HostRuntime) -> io::Result<()> {
    pack_rows(&rt)?;
    marks_rows(&rt)?;
    open_rows(&rt)?;
    call_rows(&rt)?;
    accepted(&rt)
}

// 1 to 7: packing.
fn pack_rows(rt: &impl Print) -> io::Result<()> {
    row(rt, 1, pack(&[0, 1, 2], &[1], LONGEST))?;
    row(rt, 2, pack(&[1, 0], &[0], SHORT))?;
    row(rt, 3, pack(&[0, 2], &[1], LONGEST))?;
    row(rt, 4, pack(&[0, 0], &[1], LONGEST))?;
    row(rt, 5, pack(&[0, 1], &[0], LONGEST))?;
    row(rt, 6, pack(&[1, 0], &[1], LONGEST))?;
    row(rt, 7, pack(&[2, 3, 1, 0], &[0, 0], LONGEST))
}

// 21: finding marks, for two borders whose marks are 255 before. 4 comes before it; a border that is not marked joins its points.
fn marks_rows(rt: &impl Print) -> io::Result<()> {
    row(rt, 21, suggest(&[1, 0, 3, 2]))?;
    row(rt, 4, suggest(&[1, 1, 3, 2]))?;
    row(rt, 0, suggest(&[2, 3, 0, 1]))
}

// 8, 20 and 9 to 12: opening. The count of areas is looked at before the length.
fn open_rows(rt: &impl Print) -> io::Result<()> {
    row(rt, 8, opening::open(b"\x00\x00\x00\x00"))?;
    row(rt, 8, opening::open(b"\x00\x00\x00\x00\x02\x00"))?;
    row(rt, 20, opening::open(b"\x01\x00\x02\x00\x00\x00\x03\x02"))?;
    row(rt, 20, opening::open(b"\x01\x00\x02\x00\x00\x00\x03"))?;
    row(rt, 9, opening::open(b"\x00\x00\x01\x00\x01\x00\x05"))?;
    row(rt, 10, opening::open(b"\x01\x00\x02\x00\x01\x00\x07\x02"))?;
    row(rt, 11, opening::open(b"\x01\x00\x02\x00\x01\x00\x01\x02"))?;
    row(rt, 12, opening::open(b"\x01\x00\x02\x00\x01\x00\x03\x01"))
}

// 13 to 17: a place, a point, an area that is not there, a list that is too short, and a text whose first line is empty.
fn call_rows(rt: &impl Print) -> io::Result<()> {
    let stub = b"\x01\x00\x02\x00\x01\x00\x03\x02";
    row(rt, 13, map::cross(stub, Place(0)))?;
    row(rt, 14, map::degree(stub, Point(0)))?;
    row(rt, 15, map::sides(stub, Area(0)))?;
    row(rt, 16, unpack_short(stub))?;
    row(rt, 17, parse(b"\nborder first second mark\n"))
}

// (a) the empty map, (b) a single border, (c) a loop.
fn accepted(rt: &impl Print) -> io::Result<()> {
    row(rt, 0, pack(&[], &[], LONGEST))?;
    row(rt, 0, pack(&[0, 1], &[1], LONGEST))?;
    row(rt, 0, pack(&[1, 0], &[0], LONGEST))
}

// The number of a row, and that of the refusal that came, or 0 where there is an answer.
fn row<T: Drop>(rt: &impl Print, number: u8, came: Result<T, Refusal>) -> io::Result<()> {
    let came = match came {
        Ok(_) => 0,
        Err(e) => u8::from(e),
    };
    println!(rt; "{number} {came}")
}

// A drawing that starts at 0, packed into an output of so many bytes.
fn pack(turning: &[u16], marks: &[u8], room: usize) -> Result<usize, Refusal> {
    let mut work = [0u16; 12];
    let mut out = [0u8; LONGEST];
    packing::pack(turning, marks, 0, &mut work, &mut out[..room.min(LONGEST)])
}

// Marks found for two borders whose marks are 255 before.
fn suggest(turning: &[u16]) -> Result<(), Refusal> {
    let mut marks = [255u8; 2];
    let mut work = [0u16; 12];
    suggesting::suggest(turning, &mut marks, &mut work)
}

fn unpack_short(map: &[u8]) -> Result<usize, Refusal> {
    let mut turning = [0u16; 1];
    let mut marks = [0u8; 1];
    unpacking::unpack(map, &mut turning, &mut marks)
}

fn parse(text: &[u8]) -> Result<usize, Refusal> {
    let mut turning = [0u16; 4096];
    let mut marks = [0u8; 2048];
    reading::parse(text, &mut turning, &mut marks)
}
