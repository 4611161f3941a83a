// The pass over a map: `pairing` goes over the word of its strings, wherever they stand.
ghost use Rattle.std.specs.Prelude.{◌≡◌};
ghost use Rattle.answers.specs.Lent.{laid};
ghost use Rattle.words.specs.declared.family.Family.TheVariants.{Round as round, Square as square};
ghost use Rattle.format.specs.Open.{open_refusal};
ghost use Rattle.surveying.specs.Surveyed.{mates_in, numbers_in, Mates, Numbers};

use layout::{bits_a, part_a, start_b};
use pairing::pair;
use words::Family;

// Fills the lists of a map: the mate, the area and the point of every place.
pub fn survey(
    map: &[u8],
    mates: &mut [u16; 4096],
    areas: &mut [u16; 4096],
    points: &mut [u16; 4096],
)
    requires { open_refusal map.now ≡ 0 }
    ensures mates_after { mates.new ≡ laid (mates_in map.now) mates.old }
    ensures areas_after { areas.new ≡ laid (numbers_in square map.now) areas.old }
    ensures points_after { points.new ≡ laid (numbers_in round map.now) points.old }
    ensures mates { Mates map.now mates.new }
    ensures numbers { Numbers square map.now areas.new × Numbers round map.now points.new }
{
    pair(
        part_a(map),
        bits_a(map),
        map,
        layout::areas(map) - 1,
        8 * start_b(map, Family::Square),
        8 * start_b(map, Family::Round),
        mates,
        areas,
        points,
    );
}
