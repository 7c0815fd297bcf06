// The scan in arrays that are lent to it: relays are placed one after another, and each link gets its forest number in the same
// pass.
ghost use Rattle.std.specs.Prelude.{◌*◌, ◌<◌, ◌≤◌, ◌≡◌, length};
ghost use Rattle.forests.specs.Counts.{turns_of};
ghost use Rattle.forests.specs.Buckets.{column_words, most_columns, Leads};
ghost use Rattle.forests.specs.Scan.{ChainArrays, Prepared, Ready, Startable, ScanRoom, TableScanned};

use crate::buckets::{columns_of, leading, start_counts};
use crate::busiest::busiest;
use crate::chains::link_up;
use crate::clear::clear;
use crate::idle::{count_serving, serving};
use crate::relays::{begin, put};
use crate::walk::walk;
use network::{Network, Place, Relay, Table};

// The relay that gets place v: the first is given, and then it is the one that leads.
fn next_relay(v: Place, start: Relay, columns: usize, most: u16, bits: &[u64]) -> Relay
    requires { (most < column_words) × (columns ≤ most_columns) × (columns * column_words ≤ length bits.now) }
    ensures { (v.0 ≡ 1 → result.0 ≡ start.0) × (1 < v.0 → Leads columns most bits.now result.0) }
{
    if v.0 <= 1 {
        return start;
    }
    leading(columns, most, bits)
}

// Where the placing begins: how many relays are in service, and the first of the order, any number if there is none.
#[derive(Clone, Copy)]
pub(crate) struct Start {
    pub turns: u16,
    pub relay: Relay,
}

// The chains of links: the first half of a link at each relay, and the next half behind each.
#[derive(Clone, Copy)]
pub(crate) struct Chains<'a> {
    pub first: &'a [u16],
    pub nexts: &'a [u16],
}

// The relays in service get their places, first that of `start`; no count is greater than `most`. The lists stay slices of their own,
// since the walk over the links takes them so.
fn place_all(
    network: Network,
    start: Start,
    chains: Chains,
    counts: &mut [u16],
    bits: &mut [u64],
    relays: &mut [u16],
    places: &mut [u16],
    forests: &mut [u16],
)
    requires { Startable network.table.n start.turns start.relay.0 network.table.lows.now network.table.highs.now
        network.table.states.now chains.first.now chains.nexts.now counts.old bits.old relays.old places.old forests.old }
    ensures { TableScanned network.entry.table relays.old relays.new places.old places.new forests.old forests.new }
{
    let Table {
        n,
        lows,
        highs,
        states,
    } = network.table;
    let Chains { first, nexts } = chains;
    start_counts(n, start.turns, states, counts, bits);
    begin(start.turns, start.relay, relays);
    let columns = columns_of(n);
    let mut most = 1;
    for placed in 0..start.turns {
        let v = Place(placed + 1);
        let x = next_relay(v, Relay(relays[0]), columns, most, bits);
        put(x, v, relays, places);
        most = walk(x, lows, highs, first, nexts, counts, bits, forests) + 1;
    }
}

// Makes the chains, and finds where the placing begins.
pub(crate) fn prepare(
    network: Network,
    first: &mut [u16],
    nexts: &mut [u16],
    counts: &mut [u16],
) -> Start
    requires { ChainArrays network.table.n network.table.lows.now first.old nexts.old counts.old }
    ensures turned { result.turns ≡ turns_of network.entry.table.n network.entry.table.states.now }
    ensures made { Prepared network.entry.table.n network.entry.table.lows.now network.entry.table.highs.now network.entry.table.states.now
        first.new nexts.new counts.new result.relay.0 }
{
    let Table {
        n,
        lows,
        highs,
        states,
    } = network.table;
    let turns = serving(n, states);
    link_up(lows, highs, first, nexts, counts);
    count_serving(n, turns, lows, highs, states, counts);
    let relay = busiest(n, states, counts);
    Start { turns, relay }
}

// The scan from its first relay on, in arrays that were made ready. It and `prepare` are called for each size of arrays, so that the
// compiler makes a function of each and the loops of both have their registers (docs/DECISIONS.md).
pub(crate) fn scan_in(
    network: Network,
    start: Start,
    chains: Chains,
    counts: &mut [u16],
    bits: &mut [u64],
    relays: &mut [u16],
    places: &mut [u16],
    forests: &mut [u16],
)
    requires room { ScanRoom network.table relays.old places.old forests.old }
    requires ready { Ready network.table.n start.turns start.relay.0 network.table.lows.now network.table.highs.now
        network.table.states.now chains.first.now chains.nexts.now counts.old bits.old }
    ensures { TableScanned network.entry.table relays.old relays.new places.old places.new forests.old forests.new }
{
    clear(places, usize::from(network.table.n));
    clear(forests, network.table.lows.len());
    place_all(
        network, start, chains, counts, bits, relays, places, forests,
    );
}
