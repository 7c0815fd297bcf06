// The links with a withdrawn end: which they are, and how many.
ghost use Rattle.std.specs.Prelude.{◌&&◌, not, ◌≡◌, ◌≤◌, ◌<◌, length};
ghost use Rattle.definitions.specs.Outcome.{pick};
ghost use Rattle.definitions.specs.Network.{serves};
ghost use Rattle.definitions.specs.Keep.{idle_count};
ghost use Rattle.keep.specs.Lines.{EndsWithin};

use network::{Network, Relay, in_service};

// Whether two relays are both in service.
pub(crate) fn both_serve(states: &[u16], a: Relay, b: Relay) -> bool
    requires { (a.0 < length states.now) × (b.0 < length states.now) }
    ensures { result ≡ (serves states.now a.0 && serves states.now b.0) }
{
    in_service(states, a) && in_service(states, b)
}

// 1 for a link with a withdrawn end, 0 for another.
fn idle_link(states: &[u16], a: Relay, b: Relay) -> usize
    requires { (a.0 < length states.now) × (b.0 < length states.now) }
    ensures { result ≡ pick (not (serves states.now a.0 && serves states.now b.0)) 1 0 }
{
    if both_serve(states, a, b) { 0 } else { 1 }
}

// How many links have a withdrawn end.
pub(crate) fn idle_links(network: Network) -> usize
    ensures { let t = network.entry.table in result ≡ idle_count t.lows.now t.highs.now t.states.now }
{
    let table = network.table;
    let mut idle = 0;
    for i in 0..table.lows.len() {
        idle += idle_link(table.states, Relay(table.lows[i]), Relay(table.highs[i]));
    }
    idle
}
