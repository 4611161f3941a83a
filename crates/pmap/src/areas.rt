// Calls about areas.
ghost use Rattle.std.specs.Prelude.{◌≡◌};
ghost use Rattle.answers.specs.Answer.{number_of, Kind};
ghost use Rattle.answers.specs.Lent.{leaves, itself};
ghost use Rattle.format.specs.Calls.{first_of, size_of, neighbours_of};
ghost use Rattle.tariff.specs.Maps.{factor_of};

use answers::Area;
use giving::give;

// The area's first place, or 0 if m = 0.
#[tactic(auto, using(crate::proofs::Given::fits_all))]
#[unsafe(no_mangle)]
pub extern "C" fn pmap_area_first(map: &[u8], area: usize, out: &mut u16) -> u8
    ensures value { result ≡ number_of (first_of map.now Kind.area area) }
    ensures out_after { out.new ≡ leaves itself (first_of map.now Kind.area area) out.old }
{
    give(map::area_first(map, Area(area)), out)
}

// How many places the area has.
#[tactic(auto, using(crate::proofs::Given::fits_all))]
#[unsafe(no_mangle)]
pub extern "C" fn pmap_sides(map: &[u8], area: usize, out: &mut u16) -> u8
    ensures value { result ≡ number_of (size_of map.now Kind.area area) }
    ensures out_after { out.new ≡ leaves itself (size_of map.now Kind.area area) out.old }
{
    give(map::sides(map, Area(area)), out)
}

// The area's neighbour count.
#[tactic(auto, using(crate::proofs::Given::fits_all))]
#[unsafe(no_mangle)]
pub extern "C" fn pmap_neighbours(map: &[u8], area: usize, out: &mut u16) -> u8
    ensures value { result ≡ number_of (neighbours_of map.now area) }
    ensures out_after { out.new ≡ leaves itself (neighbours_of map.now area) out.old }
{
    give(map::neighbours(map, Area(area)), out)
}

// The area's factor, by the two lists.
#[unsafe(no_mangle)]
pub extern "C" fn pmap_factor(
    map: &[u8],
    area: usize,
    kinds: &[u8],
    values: &[f64],
    out: &mut f64,
) -> u8
    ensures value { result ≡ number_of (factor_of map.now area kinds.now values.now) }
    ensures out_after { out.new
        ≡ leaves itself (factor_of map.now area kinds.now values.now) out.old }
{
    give(rating::factor(map, Area(area), kinds, values), out)
}
