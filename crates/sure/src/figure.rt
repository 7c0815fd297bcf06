// What is printed for an accepted network, from the output's first byte on.
ghost use Rattle.std.specs.Prelude.{◌≤◌, length};
ghost use Rattle.definitions.specs.Sure.{figure_text};
ghost use Rattle.text.specs.Put.{Put};
ghost use Rattle.program.specs.ReadStage.{network_in};

use forests::idle::serving;
use forests::results::{links_of, place_relays};
use network::limits::{RELAY_ROOM, ROUTES};
use network::{Network, Relay};
use plan::stages::plan_accepted;
use program::line::{put_single, put_triple};
use routes::Wish;

// The sheet for the last two relays of the order; or a line where fewer than two are in service, and where the last has no link or
// more than 32. Returns its length.
pub(crate) fn put_figure(output: &mut [u8], network: Network) -> usize
    requires { length (figure_text (network_in network)) ≤ length output.old }
    ensures { Put output.old 0 (figure_text (network_in network.entry)) output.new result }
{
    let count = usize::from(serving(network.table.n, network.table.states));
    if count < 2 {
        return put_single(output, 0, b"(none (serving ", count, b"))\n");
    }
    let mut relays = [0; RELAY_ROOM];
    let mut places = [0; RELAY_ROOM];
    place_relays(network, &mut relays, &mut places);
    let last = Relay(relays[count - 1]);
    let prior = Relay(relays[count - 2]);
    let links = links_of(network, last);
    if 1 <= links && links <= ROUTES {
        let wish = Wish {
            from: last,
            to: prior,
            k: links,
        };
        return plan_accepted(output, network, wish);
    }
    put_triple(
        output,
        0,
        b"(none (from ",
        usize::from(last.0),
        b") (to ",
        usize::from(prior.0),
        b") (links ",
        usize::from(links),
        b"))\n",
    )
}
