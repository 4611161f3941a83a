// Adding up the known factors across the sides of an area, in one loop over the list of the areas across.
ghost use Rattle.std.specs.Prelude.{◌≡◌, length};
ghost use Rattle.answers.specs.Answer.{Kind};
ghost use Rattle.format.specs.Bytes.{size_in, word_in};
ghost use Rattle.format.specs.Calls.{cells_in, landings_in};
ghost use Rattle.opening.specs.declared.cells.Cell.{Cell};
ghost use Rattle.walking.specs.Positions.{Numbered};
ghost use Rattle.tariff.specs.Tariff.{TariffFits, sum_across};
ghost use Rattle.rating.specs.Summed.{Summable};

use answers::Area;
use landing::land;
use pricing::{Tariff, add};
use tariff::Running;

// The sum of the known factors across the sides of an area, with its count.
#[tactic(auto, using(landing::proofs::Gathering::landed_fits, landing::proofs::Gathering::landed_long, crate::proofs::Summing::summable_all, crate::proofs::Summing::summed_all))]
pub fn sum_across(map: &[u8], area: Area, tariff: &Tariff) -> Running
    requires { Numbered map.now (Cell.Area area)
        × TariffFits (cells_in (size_in map.now) Kind.area) tariff.now.kinds.now tariff.now.values.now }
    ensures { result ≡ sum_across tariff.now.kinds.now tariff.now.values.now (landings_in (word_in map.now) area.0) }
{
    let mut list = [0u16; 4096];
    let sides = land(map, area, &mut list);
    sum_in(&list[..sides], tariff)
}

// The sum of the known factors of the areas of a list, in order.
#[tactic(auto, using(crate::proofs::Summing::sum_none, crate::proofs::Summing::sum_few, crate::proofs::Summing::sum_more))]
fn sum_in(list: &[u16], tariff: &Tariff) -> Running
    requires { Summable list.now (length list.now) tariff.now.kinds.now tariff.now.values.now }
    ensures { result ≡ sum_across tariff.now.kinds.now tariff.now.values.now list.now }
{
    let mut sum = Running { sum: 0.0, count: 0 };
    for &k in list {
        sum = add(sum, tariff.factor(Area(usize::from(k))));
    }
    sum
}
