// Route of document 01, alone and with the links of its routes (document 02, #101): the sweep over the left table of a network,
// and the routes written out. What its answer stands for is said in specs/Answers.antt.
#![tactic(auto)]

ghost use Rattle.std.specs.Prelude.{◌≡◌};
ghost use Rattle.definitions.specs.Route.{route_answer, counts_after, route_relays_after, scratch_after};
ghost use Rattle.definitions.specs.Over.{route_links_answer, route_links_counts, route_links_relays, route_links_links, route_links_scratch};
ghost use Rattle.routes.specs.Wishes.{of_wish};
ghost use Rattle.routes.specs.Answers.{route_outcome};

use accepted::route_accepted;
use network::{Refusal, Table};
pub use wish::Wish;
use wish::{Room, wish_check};

mod accepted;
mod between;
pub mod kept;
mod links;
mod wish;
mod write;

// The k routes from one relay to another, one after another, and how many relays each has. Gives the number of relays written.
pub fn route(
    table: Table,
    wish: Wish,
    counts: &mut [u16],
    relays: &mut [u16],
    scratch: &mut [u16],
) -> Result<usize, Refusal>
    ensures answer { route_outcome result ≡ of_wish route_answer table.entry wish counts.old relays.old scratch.old }
    ensures counts { counts.new ≡ of_wish counts_after table.entry wish counts.old relays.old scratch.old }
    ensures relays { relays.new ≡ of_wish route_relays_after table.entry wish counts.old relays.old scratch.old }
    ensures scratch { scratch.new ≡ of_wish scratch_after table.entry wish counts.old relays.old scratch.old }
{
    let network = table.check()?;
    let room = Room {
        counts: counts.len(),
        relays: relays.len(),
        links: None,
        scratch: scratch.len(),
    };
    wish_check(network, wish, room)?;
    route_accepted(network, wish, counts, relays, &mut [], scratch)
}

// The same, and the indices of the links of each route in turn, one route after another.
pub fn route_links(
    table: Table,
    wish: Wish,
    counts: &mut [u16],
    relays: &mut [u16],
    links: &mut [u16],
    scratch: &mut [u16],
) -> Result<usize, Refusal>
    ensures answer { route_outcome result
        ≡ of_wish route_links_answer table.entry wish counts.old relays.old links.old scratch.old }
    ensures counts { counts.new
        ≡ of_wish route_links_counts table.entry wish counts.old relays.old links.old scratch.old }
    ensures relays { relays.new
        ≡ of_wish route_links_relays table.entry wish counts.old relays.old links.old scratch.old }
    ensures links { links.new
        ≡ of_wish route_links_links table.entry wish counts.old relays.old links.old scratch.old }
    ensures scratch { scratch.new
        ≡ of_wish route_links_scratch table.entry wish counts.old relays.old links.old scratch.old }
{
    let network = table.check()?;
    let room = Room {
        counts: counts.len(),
        relays: relays.len(),
        links: Some(links.len()),
        scratch: scratch.len(),
    };
    wish_check(network, wish, room)?;
    route_accepted(network, wish, counts, relays, links, scratch)
}
