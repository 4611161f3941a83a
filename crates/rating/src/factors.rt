// The factor of an area: the checks in order, then its own, held, or the mean across its sides.
ghost use Rattle.std.specs.Prelude.{◌≡◌};
ghost use Rattle.answers.specs.Means.{factor_means};
ghost use Rattle.answers.specs.Answer.{Kind};
ghost use Rattle.format.specs.Bytes.{size_in, word_in};
ghost use Rattle.format.specs.Calls.{cells_in, landings_in};
ghost use Rattle.opening.specs.declared.cells.Cell.{Cell};
ghost use Rattle.walking.specs.Positions.{Numbered};
ghost use Rattle.tariff.specs.declared.factor.Factor.{Factor};
ghost use Rattle.tariff.specs.Tariff.{TariffFits, sum_across};
ghost use Rattle.tariff.specs.Maps.{factor_of};
ghost use Rattle.rating.specs.Summed.{priced};

use crate::sides::sum_across;
use answers::{Area, Refusal};
use layout::areas;
use opening::{Cell, check_cell};
use pricing::{Tariff, hold, mean_of};
use tariff::Factor;

// The factor of an area: opening's checks, 15, 18, 19, or the number.
#[tactic(auto, using(answers::proofs::Passing::passed_up, crate::proofs::Prices::factor_declines, crate::proofs::Prices::factor_lists, crate::proofs::Prices::entry_lent, crate::proofs::Prices::factor_own, crate::proofs::Prices::factor_unknown))]
pub fn factor(map: &[u8], area: Area, kinds: &[u8], values: &[f64]) -> Result<f64, Refusal>
    ensures { factor_means result ≡ factor_of map.now area.0 kinds.now values.now }
{
    check_cell(map, Cell::Area(area))?;
    let tariff = Tariff { kinds, values };
    if !tariff.fits(areas(map)) {
        return Err(Refusal::Tariff);
    }
    match tariff.factor(area) {
        Factor::Own(x) => Ok(x),
        Factor::Held(x, low, high) => Ok(hold(x, low, high)),
        Factor::Unknown => mean_across(map, area, &tariff),
    }
}

// The mean across the sides of an area whose factor is not known; 19 where no known one is across.
#[tactic(auto, using(crate::proofs::Prices::price_none, crate::proofs::Prices::price_mean))]
fn mean_across(map: &[u8], area: Area, tariff: &Tariff) -> Result<f64, Refusal>
    requires { Numbered map.now (Cell.Area area)
        × TariffFits (cells_in (size_in map.now) Kind.area) tariff.now.kinds.now tariff.now.values.now }
    ensures { factor_means result ≡ priced Factor.Unknown
        (sum_across tariff.now.kinds.now tariff.now.values.now (landings_in (word_in map.now) area.0)) }
{
    let running = sum_across(map, area, tariff);
    if running.count == 0 {
        return Err(Refusal::NoFactor);
    }
    Ok(mean_of(running))
}
