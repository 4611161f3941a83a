// Reads the bytes of a map from standard input and prints the schedule of its areas, or the line of a refusal (document 02, 1/14).
#![tactic(auto)]

ghost use Rattle.std.specs.Prelude.{◌≡◌, ◌+◌, length};
ghost use Rattle.format.specs.Bytes.{longest};
ghost use Rattle.text.specs.Listing.{refused_line};
ghost use Rattle.text.specs.Schedule.{schedule_of};

use answers::Refusal;
use format::LONGEST;
use piping::{Cut, Program, run};
use scheduling::ROOM;

// One byte more than the longest map: a longer input gets the same line as its first bytes (`schedule_cut` of the crate `text`).
const LIMIT: usize = LONGEST + 1;

fn main(rt: HostRuntime) {
    run::<ROOM, Schedule>(
        &mut rt.stdin(),
        &mut rt.stdout(),
        &mut rt.stderr(),
        b"schedule",
        &mut input(),
        &mut output(),
    );
}

struct Schedule;

// Bytes that are not the whole input are no map: they get the refusal that no bytes at all get.
impl Program<ROOM> for Schedule {
    ghost whole = { schedule_of };

    ghost cut = { refused_line 8 };

    #[tactic(auto, using(piping::proofs::Ending::heard_ended, piping::proofs::Ending::heard_failed))]
    fn respond(map: &[u8], read: Result<usize, Cut>, out: &mut [u8; ROOM]) -> usize {
        match read {
            Ok(got) => scheduling::schedule(&map[..got], out),
            Err(_) => scheduling::refused(u8::from(Refusal::Header), out),
        }
    }
}

// The memory of the input. A function, so that a contract holds its length to the bound of `schedule_cut` of the crate `text`.
fn input() -> [u8; LIMIT]
    ensures { longest + 1 ≡ length result }
{
    [0; LIMIT]
}

// The room of the longest output.
fn output() -> [u8; ROOM]
    ensures { 41853 ≡ length result }
{
    [0; ROOM]
}
