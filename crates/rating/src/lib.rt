// The factor of an area of a packed map: its own, held between a floor and a ceiling, or the mean across its sides.
//
//     factor   the factor of an area, from the map and two lists that say what is known of each area
//
// Conventions. Areas count from 1, positions from 0: position p is place p + 1. The lists have one kind byte for each area (0 own,
// 1 held, 2 not known) and three numbers (factor, floor, ceiling). factor asks nothing of its caller: on any bytes, any number and
// any lists it answers, or it declines with the refusal of the first check that fails.
//
// The crate `landing` fills a list with the areas across the sides, in walk order from the area's first place; one loop goes along it
// and hands on a sum and a count. The source is document 02, 4/14; the definitions that the contracts cite are those of the crate
// `tariff`.
#![tactic(auto)]

mod factors;
mod sides;

pub use factors::factor;
