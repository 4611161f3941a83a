// From an answer of packing to what is returned and a slot.
ghost use Rattle.std.specs.Prelude.{◌≡◌, ◌+◌, ◌*◌, ◌<◌};
ghost use Rattle.answers.specs.Means.{packed_means};
ghost use Rattle.answers.specs.Lent.{leaves, itself};
ghost use Rattle.giving.specs.Desk.{returned, Small};

use answers::Refusal;

// The length goes to the slot, and what is returned is the status with what 7 carries.
#[tactic(auto, unfolding(answers::specs::Answer::number_of, answers::specs::Answer::value_of, answers::specs::Lent::leaves))]
pub fn give_length(p: Result<usize, Refusal>, length: &mut u16) -> u32
    requires { Small p }
    ensures value { result ≡ returned p }
    ensures length_after { length.new ≡ leaves itself (packed_means p) length.old }
{
    match p {
        Ok(l) => {
            *length = l as u16;
            0
        }
        Err(Refusal::Crossing(a, b)) => seven(a, b),
        Err(e) => u32::from(u8::from(e)),
    }
}

// The number 7 with the pair above it, from bit 8 and from bit 20 on.
fn seven(smaller: usize, larger: usize) -> u32
    requires { (smaller < 4096) × (larger < 4096) }
    ensures { result ≡ 7 + 256 * smaller + 1048576 * larger }
{
    7 + 256 * (smaller as u32) + 1048576 * (larger as u32)
}
