// Calls about points.
ghost use Rattle.std.specs.Prelude.{◌≡◌};
ghost use Rattle.answers.specs.Answer.{number_of, Kind};
ghost use Rattle.answers.specs.Lent.{leaves, itself};
ghost use Rattle.format.specs.Calls.{first_of, size_of, joining_of};

use answers::Point;
use giving::give;

// The point's first place, or 0 if m = 0.
#[tactic(auto, using(crate::proofs::Given::fits_all))]
#[unsafe(no_mangle)]
pub extern "C" fn pmap_point_first(map: &[u8], point: usize, out: &mut u16) -> u8
    ensures value { result ≡ number_of (first_of map.now Kind.point point) }
    ensures out_after { out.new ≡ leaves itself (first_of map.now Kind.point point) out.old }
{
    give(map::point_first(map, Point(point)), out)
}

// How many places the point has.
#[tactic(auto, using(crate::proofs::Given::fits_all))]
#[unsafe(no_mangle)]
pub extern "C" fn pmap_degree(map: &[u8], point: usize, out: &mut u16) -> u8
    ensures value { result ≡ number_of (size_of map.now Kind.point point) }
    ensures out_after { out.new ≡ leaves itself (size_of map.now Kind.point point) out.old }
{
    give(map::degree(map, Point(point)), out)
}

// The first place about u, in turning order, whose crossing lands at v, or 0 if none does.
#[tactic(auto, using(crate::proofs::Given::fits_all))]
#[unsafe(no_mangle)]
pub extern "C" fn pmap_joining(map: &[u8], u: usize, v: usize, out: &mut u16) -> u8
    ensures value { result ≡ number_of (joining_of map.now u v) }
    ensures out_after { out.new ≡ leaves itself (joining_of map.now u v) out.old }
{
    give(map::joining(map, Point(u), Point(v)), out)
}
