// Counting the other areas across the sides of an area, in one loop over the list of them.
ghost use Rattle.std.specs.Prelude.{◌≡◌, length};
ghost use Rattle.opening.specs.declared.cells.Cell.{Cell};
ghost use Rattle.walking.specs.Positions.{Numbered};
ghost use Rattle.neighbouring.specs.Counted.{neighbours_at, others_in, Countable};

use answers::Area;
use landing::land;

// One flag for each of the most areas that a map has, 2,049, and one more, since areas count from 1.
const FLAGS: usize = 2050;

// How many other areas lie across the sides of an area.
#[tactic(auto, using(landing::proofs::Gathering::landed_fits, landing::proofs::Gathering::landed_long, crate::proofs::Counting::countable_all, crate::proofs::Counting::counted_all))]
pub fn neighbours_at(map: &[u8], area: Area) -> usize
    requires { Numbered map.now (Cell.Area area) }
    ensures { result ≡ neighbours_at map.now area.0 }
{
    let mut list = [0u16; 4096];
    let sides = land(map, area, &mut list);
    count_in(&list[..sides], area)
}

// How many areas other than one are in a list: each is flagged, and counts unless it was met before, by a sum and no jump. The area
// itself counts as met from the beginning.
#[tactic(auto, using(crate::proofs::Counting::others_fit, crate::proofs::Counting::counting_end))]
fn count_in(list: &[u16], area: Area) -> usize
    requires { Countable list.now (length list.now) area.0 }
    ensures { result ≡ others_in list.now (length list.now) area.0 }
{
    let mut met = [false; FLAGS];
    met[area.0] = true;
    let mut others = 0;
    for &k in list {
        let k = usize::from(k);
        others += usize::from(!met[k]);
        met[k] = true;
    }
    others
}
