// The running sum of the known factors across an area's sides, with its count, and its mean. These are functions and no methods:
// `Running` stands in `tariff`, a theory crate, whose src/ has types only.
ghost use Rattle.std.specs.Prelude.{◌≡◌, ◌<◌};
ghost use Rattle.tariff.specs.Tariff.{held, plus, added, mean};

use tariff::{Factor, Running};

// One factor more, held as it is to be; one that is not known is passed over.
#[tactic(auto, unfolding(tariff::specs::Tariff::added))]
pub fn add(running: Running, factor: Factor) -> Running
    requires { running.count < 4096 }
    ensures { result ≡ added running factor }
{
    match factor {
        Factor::Own(x) => more(running, x),
        Factor::Held(x, low, high) => more(running, hold(x, low, high)),
        Factor::Unknown => running,
    }
}

// One number more.
#[tactic(auto, unfolding(tariff::specs::Tariff::plus))]
fn more(running: Running, x: f64) -> Running
    requires { running.count < 4096 }
    ensures { result ≡ plus running x }
{
    Running {
        sum: running.sum + x,
        count: running.count + 1,
    }
}

// "A held one is raised to its floor or lowered to its ceiling." Not `clamp`, which asks that the floor does not exceed the ceiling:
// this asks nothing of its caller.
#[tactic(auto, unfolding(tariff::specs::Tariff::held))]
pub fn hold(x: f64, low: f64, high: f64) -> f64
    ensures { result ≡ held x low high }
{
    if x < low {
        low
    } else if high < x {
        high
    } else {
        x
    }
}

// "divide by how many were added"
#[tactic(auto, unfolding(tariff::specs::Tariff::mean))]
pub fn mean_of(running: Running) -> f64
    ensures { result ≡ mean running }
{
    running.sum / std::num::nearest_u64_to_f64(running.count as u64)
}
