// The planner of document 01: from the bytes of the input to the bytes of the output.
#![tactic(auto)]

ghost use Rattle.std.specs.Prelude.{◌≡◌, length};
ghost use Rattle.definitions.specs.Lists.{overwrite};
ghost use Rattle.definitions.specs.Program.{print_answer, output_after};
ghost use Rattle.definitions.specs.Plan.{plan_text};
ghost use Rattle.program.specs.Into.{print_outcome};

use network::Refusal;
use program::into::print_into;
use program::refusal::put_refusal;
use stages::plan_network;
use wish::wish_line;

pub mod print;
pub mod rooms;
pub mod stages;
pub mod wish;

// Prints the sheet or the refused line for an input, from the output's first byte on, and gives its length.
pub fn plan(input: &[u8], output: &mut [u8; rooms::OUTPUT]) -> usize
    ensures length { result ≡ length (plan_text input.now) }
    ensures bytes { output.new ≡ overwrite (plan_text input.now) output.old }
{
    match wish_line(input) {
        Ok((wish, p)) => plan_network(output, &input[p..], wish),
        Err(departure) => put_refusal(output, Refusal::Wish(departure.0)),
    }
}

// The same into a list of any length: refused where it is shorter than what is to be printed, and then left as it was. The list of links
// has the like (`keep::keep_into`), with a room of another size.
pub fn plan_into(input: &[u8], output: &mut [u8]) -> Result<usize, Refusal>
    ensures answer { print_outcome result ≡ print_answer (plan_text input.now) output.old }
    ensures bytes { output.new ≡ output_after (plan_text input.now) output.old }
{
    let mut room = rooms::output();
    let size = plan(input, &mut room);
    print_into(&room[..size], output)
}
