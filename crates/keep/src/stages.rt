// The list's stages, the last one first: each prints the refusal that it meets, or hands on to the next.
ghost use Rattle.std.specs.Prelude.{◌≤◌, length};
ghost use Rattle.definitions.specs.Keep.{lease_text};
ghost use Rattle.definitions.specs.Program.{printed};
ghost use Rattle.text.specs.Put.{Put};
ghost use Rattle.program.specs.ReadStage.{network_in};
ghost use Rattle.keep.specs.Stages.{cut_stage, read_stage};

use crate::print::put_list;
use forests::cut;
use network::Network;
use network::limits::LINK_ROOM;
use program::refusal::put_refusal;
use program::rooms::Rooms;

// Cut, and the list with its marks.
fn keep_cut(output: &mut [u8], network: Network, k: u16) -> usize
    requires { length (printed lease_text (cut_stage k (network_in network))) ≤ length output.old }
    ensures { Put output.old 0 (printed lease_text (cut_stage k (network_in network.entry))) output.new result }
{
    let mut marks = [0; LINK_ROOM];
    match cut(network.table, k, &mut marks) {
        Ok(kept) => put_list(output, k as usize, network, &marks, kept as usize),
        Err(refusal) => put_refusal(output, refusal),
    }
}

// Read, and what follows.
pub(crate) fn keep_network(output: &mut [u8], text: &[u8], k: u16) -> usize
    requires { length (printed lease_text (read_stage text.now k)) ≤ length output.old }
    ensures { Put output.old 0 (printed lease_text (read_stage text.now k)) output.new result }
{
    let mut rooms = Rooms::new();
    match rooms.load(text) {
        Ok(network) => keep_cut(output, network, k),
        Err(refusal) => put_refusal(output, refusal),
    }
}
