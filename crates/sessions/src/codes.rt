// Whether bytes are codes of calls.
ghost use Rattle.std.specs.Prelude.{◌≡◌};
ghost use Rattle.format.specs.Sessions.{is_call, are_calls};

use calling::Call;

// Whether each byte is the code of a call.
#[tactic(auto, using(crate::proofs::Coded::codes_same))]
pub fn are_calls(calls: &[u8]) -> bool
    ensures { result ≡ are_calls calls.now }
{
    calls.iter().all(|&code| is_call(code))
}

// Whether a byte is the code of a call.
#[tactic(auto, using(crate::proofs::Coded::read_is))]
fn is_call(code: u8) -> bool
    ensures { result ≡ is_call code }
{
    Call::try_from(code).is_ok()
}
