// Reads the text of a drawing from standard input and prints the places of its map, or the line of a
// refusal (document 01, "Listing").
#![tactic(auto)]

ghost use Rattle.std.specs.Prelude.{◌≡◌, length};
ghost use Rattle.text.specs.Listing.{refused_line, places_of};

use answers::Refusal;
use piping::{Cut, Program, run};
use printout::ROOM;

// One byte more than a text of a drawing can have by the bound `text_short` of the crate `text`: what fills it is refused.
const LIMIT: usize = 43034;

fn main(rt: HostRuntime) {
    run::<ROOM, Places>(
        &mut rt.stdin(),
        &mut rt.stdout(),
        &mut rt.stderr(),
        b"places",
        &mut input(),
        &mut output(),
    );
}

struct Places;

// 01, row 17: "text not as below (tested before 1)". Bytes that are not the whole input are not a whole text.
impl Program<ROOM> for Places {
    ghost whole = { places_of };

    ghost cut = { refused_line 17 };

    #[tactic(auto, using(piping::proofs::Ending::heard_ended, piping::proofs::Ending::heard_failed))]
    fn respond(text: &[u8], read: Result<usize, Cut>, out: &mut [u8; ROOM]) -> usize {
        match read {
            Ok(got) => printout::places(&text[..got], out),
            Err(_) => listing::refused(u8::from(Refusal::Text), out),
        }
    }
}

// The memory of the input. A function, so that a contract holds its length to the bound of `cut_same` of the crate `text`.
fn input() -> [u8; LIMIT]
    ensures { 43034 ≡ length result }
{
    [0; LIMIT]
}

// The room of the longest output.
fn output() -> [u8; ROOM]
    ensures { 90138 ≡ length result }
{
    [0; ROOM]
}
