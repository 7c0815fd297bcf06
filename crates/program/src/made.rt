// The text of the network that a reading has left in a program's own lists, or the refused line.
ghost use Rattle.std.specs.Prelude.{◌≤◌, length};
ghost use Rattle.definitions.specs.Program.{printed, network_text};
ghost use Rattle.program.specs.Made.{Printed};
ghost use Rattle.program.specs.ReadStage.{network_outcome};

use crate::refusal::put_any;
use network::{Network, Refusal};
use text::write_accepted;

// The bytes for the longest network text; the refused line has fewer.
pub const TEXT_ROOM: usize = 54929;

// What a reading has answered goes out, from the output's first byte on. Returns its length.
pub fn put_made(output: &mut [u8], answer: Result<Network, Refusal>) -> usize
    requires { 54929 ≤ length output.old }
    ensures { Printed output.old (printed network_text (network_outcome answer.entry)) output.new result }
{
    match answer {
        Ok(network) => write_accepted(network, output),
        Err(refusal) => put_any(output, refusal),
    }
}
