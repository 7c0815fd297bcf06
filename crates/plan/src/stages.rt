// The planner's stages, the last one first: each prints the refusal that it meets, or hands on to the next.
ghost use Rattle.std.specs.Prelude.{◌≤◌, length};
ghost use Rattle.definitions.specs.Program.{printed};
ghost use Rattle.definitions.specs.Plan.{sheet_text};
ghost use Rattle.text.specs.Put.{Put};
ghost use Rattle.program.specs.ReadStage.{network_in};
ghost use Rattle.plan.specs.Stages.{cut_stage, read_stage};

use crate::print::put_sheet;
use crate::rooms;
use network::Network;
use network::limits::ROUTE_ROOM;
use program::refusal::put_refusal;
use program::rooms::Rooms;
use routes::Wish;
use routes::kept::cut_and_route;

// Cut and Route of an accepted network, and the sheet with the routes, their links and the count of kept links.
pub fn plan_accepted(output: &mut [u8], network: Network, wish: Wish) -> usize
    requires { length (printed sheet_text (cut_stage wish.from.0 wish.to.0 wish.k (network_in network))) ≤ length output.old }
    ensures { Put output.old 0 (printed sheet_text (cut_stage wish.from.0 wish.to.0 wish.k (network_in network.entry)))
        output.new result }
{
    let mut counts = [0; ROUTE_ROOM];
    let mut relays = [0; rooms::RELAYS];
    let mut links = [0; rooms::LINKS];
    let mut scratch = [0; rooms::SCRATCH];
    match cut_and_route(
        network,
        wish,
        &mut counts,
        &mut relays,
        &mut links,
        &mut scratch,
    ) {
        Ok(kept) => put_sheet(output, wish, &counts, &relays, &links, kept as usize),
        Err(refusal) => put_refusal(output, refusal),
    }
}

// Read, and what follows.
pub(crate) fn plan_network(output: &mut [u8], text: &[u8], wish: Wish) -> usize
    requires { length (printed sheet_text (read_stage text.now wish.from.0 wish.to.0 wish.k)) ≤ length output.old }
    ensures { Put output.old 0 (printed sheet_text (read_stage text.now wish.from.0 wish.to.0 wish.k)) output.new result }
{
    let mut rooms = Rooms::new();
    match rooms.load(text) {
        Ok(network) => plan_accepted(output, network, wish),
        Err(refusal) => put_refusal(output, refusal),
    }
}
