// The wish of Route and the room for its answer.
ghost use Rattle.std.specs.Prelude.{◌&&◌, not, ◌≡◌, ◌≤◌, ◌<◌, length};
ghost use Rattle.definitions.specs.Network.{serves};
ghost use Rattle.network.specs.Answers.{outcome};
ghost use Rattle.routes.specs.Wishes.{is_short, wish_check};

use network::limits::ROUTES;
use network::{Network, Refusal, Relay, in_service};

// The wish of Route: k routes from one relay to another.
#[derive(Clone, Copy, PartialEq, Eq)]
pub struct Wish {
    pub from: Relay,
    pub to: Relay,
    pub k: u16,
}

// The lengths of the lists that are lent; that of the links where they are asked for.
#[derive(Clone, Copy)]
pub(crate) struct Room {
    pub counts: usize,
    pub relays: usize,
    pub links: Option<usize>,
    pub scratch: usize,
}

impl Room {
    // A list is too short for so many routes in a network of n relays.
    fn is_short(self, n: u16, k: u16) -> bool
        requires { (2 ≤ n) × (n ≤ 1000) × (k ≤ 32) }
        ensures { result ≡ is_short self n k }
    {
        let size = usize::from(n);
        let routes = usize::from(k);
        self.counts < routes
            || self.relays < size - 2 + 2 * routes
            || self.scratch < routes * size
            || self.links.is_some_and(|links| links < size - 2 + routes)
    }
}

// One of the two is withdrawn.
fn withdrawn_end(states: &[u16], from: Relay, to: Relay) -> bool
    requires { (from.0 < length states.now) × (to.0 < length states.now) }
    ensures { result ≡ not (serves states.now from.0 && serves states.now to.0) }
{
    !in_service(states, from) || !in_service(states, to)
}

// What is wrong with the wish or the room for it, 9 to 12 with 17 before 12.
pub(crate) fn wish_check(network: Network, wish: Wish, room: Room) -> Result<(), Refusal>
    ensures { outcome result ≡ wish_check network.entry.table.n wish.k wish.from.0 wish.to.0
        network.entry.table.states.now room }
{
    let table = network.table;
    if wish.k < 1 || ROUTES < wish.k {
        return Err(Refusal::RouteCount);
    }
    if table.n <= wish.from.0 || table.n <= wish.to.0 {
        return Err(Refusal::EndRange);
    }
    if wish.from == wish.to {
        return Err(Refusal::SameEnds);
    }
    if withdrawn_end(table.states, wish.from, wish.to) {
        return Err(Refusal::Withdrawn);
    }
    if room.is_short(table.n, wish.k) {
        return Err(Refusal::Room);
    }
    Ok(())
}
