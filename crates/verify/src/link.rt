// What a step of a route asks of its link: that it joins the two relays, and that both its ends are in service.
ghost use Rattle.std.specs.Prelude.{◌&&◌, ◌≡◌, ◌<◌, eqb, ltb, length};
ghost use Rattle.definitions.specs.Network.{joins, link_serves};

use network::{Network, Relay, in_service};

// The index of a link in the table, never a relay number.
#[derive(Clone, Copy, PartialEq, Eq)]
pub(crate) struct Link(pub u16);

// Whether a link with these ends is the pair a b.
fn is_pair(low: Relay, high: Relay, a: Relay, b: Relay) -> bool
    ensures { result ≡ (eqb low.0 a.0 && eqb high.0 b.0) }
{
    low == a && high == b
}

// Whether link l of the table joins a and b.
pub(crate) fn link_joins(network: Network, a: Relay, b: Relay, l: Link) -> bool
    ensures { result ≡ (ltb l.0 (length network.entry.table.lows.now)
        && joins network.entry.table.lows.now network.entry.table.highs.now a.0 b.0 l.0) }
{
    let table = network.table;
    let i = usize::from(l.0);
    if table.lows.len() <= i {
        return false;
    }
    let low = Relay(table.lows[i]);
    let high = Relay(table.highs[i]);
    is_pair(low, high, a, b) || is_pair(low, high, b, a)
}

// Whether both ends of link l of the table are in service.
pub(crate) fn link_serves(network: Network, l: Link) -> bool
    requires { l.0 < length network.table.lows.now }
    ensures { result ≡ link_serves network.entry.table.lows.now network.entry.table.highs.now network.entry.table.states.now l.0 }
{
    let table = network.table;
    let i = usize::from(l.0);
    let low = Relay(table.lows[i]);
    let high = Relay(table.highs[i]);
    in_service(table.states, low) && in_service(table.states, high)
}
