// Calls about a place: the four moves, and its point and area.
ghost use Rattle.std.specs.Prelude.{◌≡◌};
ghost use Rattle.answers.specs.Answer.{number_of, plain, gone_round};
ghost use Rattle.answers.specs.Lent.{leaves, itself};
ghost use Rattle.format.specs.Calls.{cross_of, turn_of, turn_back_of, along_of, point_of, area_of};

use answers::Place;
use giving::{give, give_turn};

// The place of the other end.
#[tactic(auto, using(crate::proofs::Given::fits_all))]
#[unsafe(no_mangle)]
pub extern "C" fn pmap_cross(map: &[u8], place: usize, out: &mut u16) -> u8
    ensures value { result ≡ number_of (cross_of map.now place) }
    ensures out_after { out.new ≡ leaves itself (cross_of map.now place) out.old }
{
    give(map::cross(map, Place(place)), out)
}

// The next place about the point; after the last the first, and then it has gone round.
#[tactic(auto, using(crate::proofs::Given::fits_all))]
#[unsafe(no_mangle)]
pub extern "C" fn pmap_turn(map: &[u8], place: usize, out: &mut u16, round: &mut u8) -> u8
    ensures value { result ≡ number_of (turn_of map.now place) }
    ensures out_after { out.new ≡ leaves itself (plain (turn_of map.now place)) out.old }
    ensures round_after { round.new ≡ leaves itself (gone_round (turn_of map.now place)) round.old }
{
    give_turn(map::turn(map, Place(place)), out, round)
}

// The reverse; before the first the last, and then it has gone round.
#[tactic(auto, using(crate::proofs::Given::fits_all))]
#[unsafe(no_mangle)]
pub extern "C" fn pmap_turn_back(map: &[u8], place: usize, out: &mut u16, round: &mut u8) -> u8
    ensures value { result ≡ number_of (turn_back_of map.now place) }
    ensures out_after { out.new ≡ leaves itself (plain (turn_back_of map.now place)) out.old }
    ensures round_after { round.new ≡ leaves itself (gone_round (turn_back_of map.now place)) round.old }
{
    give_turn(map::turn_back(map, Place(place)), out, round)
}

// The next place of the area walk.
#[tactic(auto, using(crate::proofs::Given::fits_all))]
#[unsafe(no_mangle)]
pub extern "C" fn pmap_along(map: &[u8], place: usize, out: &mut u16) -> u8
    ensures value { result ≡ number_of (along_of map.now place) }
    ensures out_after { out.new ≡ leaves itself (along_of map.now place) out.old }
{
    give(map::along(map, Place(place)), out)
}

// The point of the place.
#[tactic(auto, using(crate::proofs::Given::fits_all))]
#[unsafe(no_mangle)]
pub extern "C" fn pmap_point(map: &[u8], place: usize, out: &mut u16) -> u8
    ensures value { result ≡ number_of (point_of map.now place) }
    ensures out_after { out.new ≡ leaves itself (point_of map.now place) out.old }
{
    give(map::point_at(map, Place(place)), out)
}

// The area of the place.
#[tactic(auto, using(crate::proofs::Given::fits_all))]
#[unsafe(no_mangle)]
pub extern "C" fn pmap_area(map: &[u8], place: usize, out: &mut u16) -> u8
    ensures value { result ≡ number_of (area_of map.now place) }
    ensures out_after { out.new ≡ leaves itself (area_of map.now place) out.old }
{
    give(map::area_at(map, Place(place)), out)
}
