// The desk's list of the links worth keeping under lease: from the bytes of the input to the bytes of the output.
#![tactic(auto)]

ghost use Rattle.std.specs.Prelude.{◌≡◌, length};
ghost use Rattle.definitions.specs.Lists.{overwrite};
ghost use Rattle.definitions.specs.Keep.{keep_text};
ghost use Rattle.definitions.specs.Program.{print_answer, output_after};
ghost use Rattle.program.specs.Into.{print_outcome};

use front::keep_line;
use network::Refusal;
use program::into::print_into;
use program::refusal::put_refusal;
use stages::keep_network;

mod front;
mod idle;
mod print;
pub mod rooms;
mod stages;

// Prints the list or the refused line for an input, from the output's first byte on, and gives its length.
pub fn keep(input: &[u8], output: &mut [u8; rooms::OUTPUT]) -> usize
    ensures length { result ≡ length (keep_text input.now) }
    ensures bytes { output.new ≡ overwrite (keep_text input.now) output.old }
{
    match keep_line(input) {
        Ok((k, p)) => keep_network(output, &input[p..], k),
        Err(departure) => put_refusal(output, Refusal::Wish(departure.0)),
    }
}

// The same into a list of any length: refused where it is shorter than what is to be printed, and then left as it was. The planner has
// the like, with a room of another size: one function of both would take the room too, and say no less.
pub fn keep_into(input: &[u8], output: &mut [u8]) -> Result<usize, Refusal>
    ensures answer { print_outcome result ≡ print_answer (keep_text input.now) output.old }
    ensures bytes { output.new ≡ output_after (keep_text input.now) output.old }
{
    let mut room = rooms::output();
    let size = keep(input, &mut room);
    print_into(&room[..size], output)
}
