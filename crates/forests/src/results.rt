// Scans of which one result is kept: the order and the places, the forest numbers, or the count of links that they start with.
ghost use Rattle.std.specs.Prelude.{◌≤◌, ◌≡◌, length};
ghost use Rattle.definitions.specs.Lists.{overwrite};
ghost use Rattle.definitions.specs.Order.{links_at, order_of, places_of};
ghost use Rattle.definitions.specs.Forests.{forests_of};
ghost use Rattle.network.specs.Tables.{of_table};

use crate::placing::prepare;
use crate::scan::scan;
use network::limits::{FEW_LINKS, FEW_RELAY_ROOM, FEW_RELAYS, LINK_ROOM, RELAY_ROOM};
use network::{Network, Relay};

// The order and the places alone.
pub fn place_relays(network: Network, relays: &mut [u16], places: &mut [u16])
    requires { (network.table.n ≤ length relays.old) × (network.table.n ≤ length places.old) }
    ensures relays_left { relays.new ≡ overwrite (of_table order_of network.entry.table) relays.old }
    ensures places_left { places.new
        ≡ overwrite (places_of network.entry.table.n (of_table order_of network.entry.table)) places.old }
{
    if network.table.lows.len() <= FEW_LINKS {
        let mut forests = [0u16; FEW_LINKS];
        scan(network, relays, places, &mut forests);
    } else {
        let mut forests = [0u16; LINK_ROOM];
        scan(network, relays, places, &mut forests);
    }
}

// The forest numbers alone.
pub(crate) fn number_links(network: Network, forests: &mut [u16])
    requires { length network.table.lows.now ≤ length forests.old }
    ensures { forests.new ≡ overwrite (of_table forests_of network.entry.table) forests.old }
{
    if network.table.n <= FEW_RELAYS {
        let mut relays = [0u16; FEW_RELAY_ROOM];
        let mut places = [0u16; FEW_RELAY_ROOM];
        scan(network, &mut relays, &mut places, forests);
    } else {
        let mut relays = [0u16; RELAY_ROOM];
        let mut places = [0u16; RELAY_ROOM];
        scan(network, &mut relays, &mut places, forests);
    }
}

// How many links with both ends in service a relay has.
pub fn links_of(network: Network, relay: Relay) -> u16
    ensures { result ≡ links_at network.entry.table.lows.now network.entry.table.highs.now network.entry.table.states.now relay.0 }
{
    let none = 2 * network.table.lows.len() as u16;
    let mut first = [none; RELAY_ROOM];
    let mut nexts = [0u16; 2 * LINK_ROOM];
    let mut counts = [0u16; RELAY_ROOM];
    prepare(network, &mut first, &mut nexts, &mut counts);
    if network.table.n <= relay.0 {
        return 0;
    }
    counts[usize::from(relay.0)]
}
