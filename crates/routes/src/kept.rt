// Route with links and the count of the links that Cut keeps, from one scan of an accepted table.
ghost use Rattle.std.specs.Prelude.{◌≡◌};
ghost use Rattle.definitions.specs.Lists.{zeroed};
ghost use Rattle.definitions.specs.Over.{route_links_counts, route_links_relays, route_links_links, route_links_scratch};
ghost use Rattle.forests.specs.Answers.{cut_outcome};
ghost use Rattle.routes.specs.Wishes.{of_wish};
ghost use Rattle.routes.specs.Answers.{Asked, CountedFor, counted_answer};

use crate::Wish;
use crate::accepted::Arrays;
use crate::wish::{Room, wish_check};
use forests::marks::kept_links;
use network::limits::{LINK_ROOM, RELAY_ROOM};
use network::{Network, Refusal};
use sweep::sides::SIDE_ROOM;

// Both where all but 13 is passed.
fn route_counted(
    network: Network,
    wish: Wish,
    counts: &mut [u16],
    relays: &mut [u16],
    links: &mut [u16],
    scratch: &mut [u16],
) -> Result<u16, Refusal>
    requires { Asked network.table wish counts.old relays.old scratch.old }
    ensures counted { CountedFor network.entry.table wish counts.old relays.old links.old
        counts.new relays.new links.new (cut_outcome result) }
    ensures scratch_left { scratch.new ≡ zeroed scratch.old }
{
    let mut arrays = Arrays::<RELAY_ROOM, LINK_ROOM, SIDE_ROOM>::new();
    arrays.scan(network);
    let kept = kept_links(network.table.lows.len(), wish.k, &arrays.numbers);
    arrays.route(network, wish, counts, relays, links, scratch)?;
    Ok(kept)
}

// Cut's count and Route with links of an accepted table: refused where Route is, and its lists afterwards are Route's.
pub fn cut_and_route(
    network: Network,
    wish: Wish,
    counts: &mut [u16],
    relays: &mut [u16],
    links: &mut [u16],
    scratch: &mut [u16],
) -> Result<u16, Refusal>
    ensures result_value { cut_outcome result
        ≡ of_wish counted_answer network.entry.table wish counts.old relays.old links.old scratch.old }
    ensures counts_left { counts.new
        ≡ of_wish route_links_counts network.entry.table wish counts.old relays.old links.old scratch.old }
    ensures relays_left { relays.new
        ≡ of_wish route_links_relays network.entry.table wish counts.old relays.old links.old scratch.old }
    ensures links_left { links.new
        ≡ of_wish route_links_links network.entry.table wish counts.old relays.old links.old scratch.old }
    ensures scratch_left { scratch.new
        ≡ of_wish route_links_scratch network.entry.table wish counts.old relays.old links.old scratch.old }
{
    let room = Room {
        counts: counts.len(),
        relays: relays.len(),
        links: Some(links.len()),
        scratch: scratch.len(),
    };
    wish_check(network, wish, room)?;
    route_counted(network, wish, counts, relays, links, scratch)
}
