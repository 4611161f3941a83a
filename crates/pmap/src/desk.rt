// Finding marks, packing and unpacking, with the drawing lent as lists.
ghost use Rattle.std.specs.Prelude.{◌≡◌, ℕ, length as size};
ghost use Rattle.answers.specs.Answer.{number_of, told};
ghost use Rattle.answers.specs.Lent.{laid, leaves, itself};
ghost use Rattle.drawing.specs.Drawing.{lent, borders, Drawing};
ghost use Rattle.format.specs.Pack.{unpack_of};
ghost use Rattle.format.specs.Suggest.{Suggests};
ghost use Rattle.format.specs.Packs.{PackReturns};

use giving::{give, give_length};

// Marks of a spanning tree go to `marks`.
#[tactic(auto, unfolding(answers::specs::Answer::number_of))]
#[unsafe(no_mangle)]
pub extern "C" fn pmap_marks(turning: &[u16], marks: &mut [u8], work: &mut [u16]) -> u8
    ensures { (s : ℕ) → Suggests (lent turning.now marks.old s)
        work.old work.new marks.new result }
{
    match suggesting::suggest(turning, marks, work) {
        Ok(()) => 0,
        Err(e) => u8::from(e),
    }
}

// The map of a drawing goes to `out`, its length to a slot. With 7 the pair stands in the bits above the status.
#[unsafe(no_mangle)]
pub extern "C" fn pmap_pack(
    turning: &[u16],
    marks: &[u8],
    start: usize,
    work: &mut [u16],
    out: &mut [u8],
    length: &mut u16,
) -> u32
    ensures { PackReturns (lent turning.now marks.now start) work.old work.new
        out.old out.new length.old length.new result }
{
    give_length(packing::pack(turning, marks, start, work, out), length)
}

// The drawing of a map goes to the two lists, m to a slot.
#[tactic(auto, using(crate::proofs::Drawings::unpack_fits, crate::proofs::Drawings::unpack_status))]
#[unsafe(no_mangle)]
pub extern "C" fn pmap_unpack(map: &[u8], turning: &mut [u16], marks: &mut [u8], m: &mut u16) -> u8
    ensures value { result ≡ number_of (unpack_of map.now (size turning.old) (size marks.old)) }
    ensures turning_after { turning.new
        ≡ leaves (λ (D : Drawing). laid D.turning) (unpack_of map.now (size turning.old) (size marks.old))
        turning.old }
    ensures marks_after { marks.new
        ≡ leaves (λ (D : Drawing). laid D.marks) (unpack_of map.now (size turning.old) (size marks.old))
        marks.old }
    ensures m_after { m.new
        ≡ leaves itself (told borders (unpack_of map.now (size turning.old) (size marks.old)))
        m.old }
{
    give(unpacking::unpack(map, turning, marks), m)
}
