// How many places a point or an area has, in one pass from its first position.
ghost use Rattle.std.specs.Prelude.{◌≡◌};
ghost use Rattle.words.specs.Brackets.{inner, number, size};
ghost use Rattle.words.specs.Word.{seen};
ghost use Rattle.format.specs.Bytes.{size_in, bits_a, word_in};
ghost use Rattle.format.specs.Calls.{places_in};
ghost use Rattle.opening.specs.Cells.{kind_of, number_of_cell};
ghost use Rattle.walking.specs.Positions.{Position, Numbered};

use crate::counts::Strings;
use layout::{bits_a, family_bit, part_a, part_b};
use opening::Cell;
use walking::first_at;
use words::Family;

// How many places the point (area) has; an empty map has none.
#[tactic(auto, using(crate::proofs::Counting::size_none, crate::proofs::Counting::first_itself, crate::proofs::Counting::size_some))]
pub fn size_at(map: &[u8], cell: Cell) -> usize
    requires { Numbered map.now cell }
    ensures { result ≡ places_in (word_in map.now) (kind_of cell) (number_of_cell cell) }
{
    if bits_a(map) == 0 {
        return 0;
    }
    size_from(map, cell.family(), first_at(map, cell))
}

// The positions about the point (area) whose first position is f: those from f on at which no more
// brackets are open than at f, up to the closing of the bracket before f.
#[tactic(auto, using(crate::proofs::Counting::counting_is))]
fn size_from(map: &[u8], family: Family, f: usize) -> usize
    requires { Position map.now f × (inner (seen family (word_in map.now)) f ≡ f) }
    ensures { result ≡ size (seen family (word_in map.now)) (bits_a (size_in map.now))
        (number (seen family (word_in map.now)) f) }
{
    let strings = Strings {
        a: part_a(map),
        b: part_b(map, family),
        v: family_bit(family),
    };
    let j = bits::rank(strings.a, strings.v, f);
    strings.count(bits_a(map), f, j)
}
