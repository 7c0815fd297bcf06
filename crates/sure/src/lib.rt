// One sure figure for a network (document 02, #107): from the bytes of the input to the bytes of the output.
#![tactic(auto)]

ghost use Rattle.std.specs.Prelude.{◌≡◌, length};
ghost use Rattle.definitions.specs.Lists.{overwrite};
ghost use Rattle.definitions.specs.Sure.{sure_text};

use figure::put_figure;
use program::refusal::put_refusal;
use program::rooms::Rooms;

mod figure;

// Prints the sheet for the last two relays, the line where there is none, or the refused line, from the output's first byte on, and
// returns its length.
pub fn sure(input: &[u8], output: &mut [u8; plan::rooms::OUTPUT]) -> usize
    ensures length { result ≡ length (sure_text input.now) }
    ensures bytes { output.new ≡ overwrite (sure_text input.now) output.old }
{
    let mut rooms = Rooms::new();
    match rooms.load(input) {
        Ok(network) => put_figure(output, network),
        Err(refusal) => put_refusal(output, refusal),
    }
}
