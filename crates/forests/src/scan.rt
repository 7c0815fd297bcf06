// The scan of an accepted table, in the smallest arrays that it fits.
ghost use Rattle.std.specs.Prelude.{◌*◌, ◌<◌, ◌≤◌, ◌≡◌, length, get_or};
ghost use Rattle.forests.specs.Buckets.{columns_for, column_words};
ghost use Rattle.forests.specs.Scan.{is_small, ScanRoom, TableScanned};

use crate::buckets::{COLUMN_WORDS, FEW_WORDS, MOST_WORDS};
use crate::placing::{Chains, prepare, scan_in};
use network::limits::{
    FEW_LINKS, FEW_RELAY_ROOM, FEW_RELAYS, FEWEST_LINKS, FEWEST_RELAY_ROOM, FEWEST_RELAYS,
    LINK_ROOM, RELAY_ROOM,
};
use network::{Network, Place, Relay};

// The two halves of each link.
const HALVES: usize = 2 * LINK_ROOM;

const FEW_HALVES: usize = 2 * FEW_LINKS;

const FEWEST_HALVES: usize = 2 * FEWEST_LINKS;

// The place of a relay, from the list of places.
pub fn place_of(places: &[u16], r: Relay) -> Place
    requires { r.0 < length places.now }
    ensures { result.0 ≡ get_or places.now r.0 0 }
{
    Place(places[usize::from(r.0)])
}

// A small network is worked on in small arrays, so that little is cleared.
pub fn is_small(n: u16, m: usize) -> bool
    ensures { result ≡ is_small n m }
{
    n <= FEW_RELAYS && m <= FEW_LINKS
}

// The scan in arrays for so many relays, halves of links and words of bits.
fn scan_sized<const RELAYS: usize, const HALVES: usize, const WORDS: usize>(
    network: Network,
    relays: &mut [u16],
    places: &mut [u16],
    forests: &mut [u16],
)
    requires sizes { (RELAYS ≤ 1000) × (HALVES ≤ 6000) × (WORDS ≤ 1280) × (columns_for RELAYS * column_words ≤ WORDS) }
    requires fits { (network.table.n ≤ RELAYS) × (2 * length network.table.lows.now ≤ HALVES) }
    requires room { ScanRoom network.table relays.old places.old forests.old }
    ensures { TableScanned network.entry.table relays.old relays.new places.old places.new forests.old forests.new }
{
    let none = 2 * network.table.lows.len() as u16;
    let mut first = [none; RELAYS];
    let mut nexts = [0u16; HALVES];
    let mut counts = [0u16; RELAYS];
    let mut bits = [0u64; WORDS];
    let start = prepare(network, &mut first, &mut nexts, &mut counts);
    let chains = Chains {
        first: &first,
        nexts: &nexts,
    };
    scan_in(
        network,
        start,
        chains,
        &mut counts,
        &mut bits,
        relays,
        places,
        forests,
    );
}

// The order, the places and the forest numbers of an accepted table.
pub fn scan(network: Network, relays: &mut [u16], places: &mut [u16], forests: &mut [u16])
    requires { ScanRoom network.table relays.old places.old forests.old }
    ensures { TableScanned network.entry.table relays.old relays.new places.old places.new forests.old forests.new }
{
    let table = network.table;
    if table.n <= FEWEST_RELAYS && table.lows.len() <= FEWEST_LINKS {
        scan_sized::<FEWEST_RELAY_ROOM, FEWEST_HALVES, COLUMN_WORDS>(
            network, relays, places, forests,
        );
    } else if is_small(table.n, table.lows.len()) {
        scan_sized::<FEW_RELAY_ROOM, FEW_HALVES, FEW_WORDS>(network, relays, places, forests);
    } else {
        scan_sized::<RELAY_ROOM, HALVES, MOST_WORDS>(network, relays, places, forests);
    }
}
