// What the lists of a tally have for an area, looked up by its number: a number of sides from the one, a place from the other.
ghost use Rattle.std.specs.Prelude.{◌≡◌, ◌-◌, ◌<◌, ◌≤◌};
ghost use Rattle.tallying.specs.Tallied.{entry_at, HasEntry};

use answers::{Area, Place};

// How many sides an area has, by the list of the sides.
pub fn sides_of(sides: &[u16], area: Area) -> usize
    requires { HasEntry sides.now area.0 }
    ensures { (result ≡ entry_at sides.now area.0) × (result < 65536) }
{
    let k = index_of(area);
    usize::from(sides[k])
}

// The first place of an area, by the list of the first places.
pub fn first_of(firsts: &[u16], area: Area) -> Place
    requires { HasEntry firsts.now area.0 }
    ensures { (result.0 ≡ entry_at firsts.now area.0) × (result.0 < 65536) }
{
    let k = index_of(area);
    Place(usize::from(firsts[k]))
}

// Where the lists have the entry of an area.
pub fn index_of(area: Area) -> usize
    requires { 1 ≤ area.0 }
    ensures { result ≡ area.0 - 1 }
{
    area.0 - 1
}
