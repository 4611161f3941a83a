// Unpacking into lent lists: the map is read once into lists of its mates and its ends, and the drawing is written from them.
ghost use Rattle.std.specs.Prelude.{◌≡◌, ◌<◌, ◌≤◌, eqb, length};
ghost use Rattle.count.specs.Below.{pick};
ghost use Rattle.answers.specs.Answer.{told};
ghost use Rattle.answers.specs.Lent.{laid, leaves};
ghost use Rattle.answers.specs.Means.{unpacked_means};
ghost use Rattle.drawing.specs.Drawing.{most_ends, borders, Drawing};
ghost use Rattle.format.specs.Bytes.{size_in, bits_a, word_in};
ghost use Rattle.format.specs.Pack.{drawing_of, unpack_of};
ghost use Rattle.surveying.specs.Surveyed.{Mates};
ghost use Rattle.unpacking.specs.Ended.{Ends};

use crate::ends::write_ends;
use answers::Refusal;
use layout::{bits_a, borders, part_a};
use opening::{OpenMap, open_map};
use surveying::survey;
use walking::after;

// Writes the drawing of the map and answers m, or declines: opening's checks, then 16: "lists under 2m or m entries".
pub fn unpack(map: &[u8], turning: &mut [u16], marks: &mut [u8]) -> Result<usize, Refusal>
    ensures result_value { unpacked_means result ≡ told borders (unpack_of map.now (length turning.old) (length marks.old)) }
    ensures turning_after { turning.new ≡ leaves (λ (D : Drawing). laid D.turning)
        (unpack_of map.now (length turning.old) (length marks.old)) turning.old }
    ensures marks_after { marks.new ≡ leaves (λ (D : Drawing). laid D.marks)
        (unpack_of map.now (length turning.old) (length marks.old)) marks.old }
{
    let open = open_map(map)?;
    let m = borders(map);
    if turning.len() < 2 * m {
        return Err(Refusal::ShortLists);
    }
    if marks.len() < m {
        return Err(Refusal::ShortLists);
    }
    write(open, turning, marks);
    Ok(m)
}

// Writes the drawing of a map that opens.
fn write(map: OpenMap<'_>, turning: &mut [u16], marks: &mut [u8])
    requires { (bits_a (size_in map.bytes.now) ≤ length turning.old) × ((size_in map.bytes.now).m ≤ length marks.old) }
    ensures turning_after { turning.new ≡ laid (drawing_of (word_in map.entry.bytes.now)).turning turning.old }
    ensures marks_after { marks.new ≡ laid (drawing_of (word_in map.entry.bytes.now)).marks marks.old }
{
    let mut mates = [0u16; 4096];
    let mut areas = [0u16; 4096];
    let mut points = [0u16; 4096];
    survey(map.bytes, &mut mates, &mut areas, &mut points);
    // The areas and the points are not asked for: the ends go into the list of the areas.
    write_from(map, &mates, &mut areas, turning, marks);
}

// Writes the drawing from the mates, by way of the ends.
fn write_from(
    map: OpenMap<'_>,
    mates: &[u16; 4096],
    ends: &mut [u16; 4096],
    turning: &mut [u16],
    marks: &mut [u8],
)
    requires map_value { Mates map.bytes.now mates.now }
    requires map_in_bounds { (bits_a (size_in map.bytes.now) ≤ length turning.old) × ((size_in map.bytes.now).m ≤ length marks.old) }
    ensures turning_after { turning.new ≡ laid (drawing_of (word_in map.entry.bytes.now)).turning turning.old }
    ensures marks_after { marks.new ≡ laid (drawing_of (word_in map.entry.bytes.now)).marks marks.old }
{
    write_ends(map, mates, ends);
    write_drawing(map, mates, ends, turning, marks);
}

// The entry of the end at each position, and the mark of its border; both positions of a border have one family.
fn write_drawing(
    map: OpenMap<'_>,
    mates: &[u16],
    ends: &[u16],
    turning: &mut [u16],
    marks: &mut [u8],
)
    requires map_value { Mates map.bytes.now mates.now × Ends map.bytes.now ends.now }
    requires in_bounds { (4096 ≤ length mates.now) × (4096 ≤ length ends.now) }
    requires map_in_bounds { (bits_a (size_in map.bytes.now) ≤ length turning.old) × ((size_in map.bytes.now).m ≤ length marks.old) }
    ensures turning_after { turning.new ≡ laid (drawing_of (word_in map.entry.bytes.now)).turning turning.old }
    ensures marks_after { marks.new ≡ laid (drawing_of (word_in map.entry.bytes.now)).marks marks.old }
{
    let n = bits_a(map.bytes);
    let a = part_a(map.bytes);
    for p in 0..n {
        let mark = bits::bit(a, p);
        let h = usize::from(ends[p]);
        let q = round_mate(mark, p, usize::from(mates[p]));
        turning[h] = ends[after(n, q)];
        marks[h / 2] = mark as u8;
    }
}

// The partner of position p among the round brackets, where q is its mate: q where p is marked, else p itself. A sum and no
// branch: which of the two comes next can't be foreseen.
fn round_mate(mark: usize, p: usize, q: usize) -> usize
    requires { (mark < 2) × (p < most_ends) × (q < most_ends) }
    ensures { result ≡ pick (eqb mark 1) q p }
{
    mark * q + (1 - mark) * p
}
