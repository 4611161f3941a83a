// The calls and their codes, in the order in which document 01, "Moves", has them.
ghost use Rattle.calling.specs.Codes.{Reads};

use answers::Refusal;

#[derive(Clone, Copy, Debug, PartialEq, Eq)]
pub enum Call {
    Cross,
    Turn,
    TurnBack,
    Along,
    Point,
    Area,
}

// The call with a code; NoCall where no call has it.
impl TryFrom<u8> for Call {
    type Error = Refusal;

    ghost try_from_gives = { λ code r. Reads code r };

    #[tactic(auto, unfolding(format::specs::Sessions::call_of))]
    fn try_from(code: u8) -> Result<Call, Refusal> {
        match code {
            0 => Ok(Call::Cross),
            1 => Ok(Call::Turn),
            2 => Ok(Call::TurnBack),
            3 => Ok(Call::Along),
            4 => Ok(Call::Point),
            5 => Ok(Call::Area),
            _ => Err(Refusal::NoCall),
        }
    }
}
