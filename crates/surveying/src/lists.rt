// The memory of the lists, and a map surveyed into it.
ghost use Rattle.std.specs.Prelude.{◌≡◌, length, replicate};

use crate::moves::Survey;
use crate::pass::survey;
use opening::OpenMap;

// The most places of a map.
const MOST_PLACES: usize = 4096;

// Room for the lists of the largest map, on the stack of whoever asks; it is lent and never copied.
#[derive(Drop)]
pub struct Lists {
    mates: [u16; MOST_PLACES],
    areas: [u16; MOST_PLACES],
    points: [u16; MOST_PLACES],
}

impl Lists {
    // Every entry is 0.
    pub fn new() -> Lists
        ensures { (result.mates ≡ replicate 4096 0) × (result.areas ≡ replicate 4096 0) × (result.points ≡ replicate 4096 0) }
    {
        Lists {
            mates: [0; MOST_PLACES],
            areas: [0; MOST_PLACES],
            points: [0; MOST_PLACES],
        }
    }

    // One pass over the map fills the lists, whatever they held.
    pub fn survey<'a>(&'a mut self, map: OpenMap<'a>) -> Survey<'a>
        ensures of_map { result.map.now ≡ map.entry.bytes.now }
        ensures whole { (4096 ≡ length result.mates.now) × (4096 ≡ length result.areas.now) × (4096 ≡ length result.points.now) }
    {
        survey(
            map.bytes,
            &mut self.mates,
            &mut self.areas,
            &mut self.points,
        );
        Survey {
            map: map.bytes,
            mates: &self.mates,
            areas: &self.areas,
            points: &self.points,
        }
    }
}
