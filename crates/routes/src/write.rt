// Writes the routes out of the two sides' lists, as relay numbers.
ghost use Rattle.std.specs.Prelude.{◌≡◌, ◌≤◌};
ghost use Rattle.definitions.specs.Order.{relay_at};
ghost use Rattle.sweep.specs.Side.{second_in};
ghost use Rattle.routes.specs.Writing.{last_start, last_turn, count_in, write_down, write_up, route_length, write_route, written, write_from};

use network::limits::RELAY_ROOM;
use network::{Place, Relay};
use sweep::side::{end_of, get, prior_of, put, second_of};

// The relay at a place of the order.
fn relay_at(order: &[u16], p: Place) -> Relay
    ensures { result.0 ≡ relay_at order.now p.0 }
{
    Relay(get(order, usize::from(p.0).saturating_sub(1)))
}

// How many relays path i has before its end, 1,000 at most.
pub(crate) fn count(side: &[u16], i: u16) -> usize
    ensures value { result ≡ count_in side.now i }
    ensures bound { result ≤ 1000 }
{
    let mut x = second_of(side, i);
    for c in 0..RELAY_ROOM {
        if x.0 == 0 {
            return c;
        }
        x = prior_of(side, x);
    }
    RELAY_ROOM
}

// The `count` relays of path i before its end, written downwards to `from`.
fn write_down(relays: &mut [u16], side: &[u16], order: &[u16], i: u16, count: usize, from: usize)
    requires { (count ≤ 1000) × (from ≤ last_start) }
    ensures { relays.new ≡ write_down side.now order.now from count
        (second_in side.now i) relays.old }
{
    let mut x = second_of(side, i);
    for c in (0..count).rev() {
        put(relays, from + c, relay_at(order, x).0);
        x = prior_of(side, x);
    }
}

// The `count` relays of path i before its end, written upwards from `at`.
fn write_up(relays: &mut [u16], side: &[u16], order: &[u16], i: u16, count: usize, at: usize)
    requires { (count ≤ 1000) × (at ≤ last_turn) }
    ensures { relays.new ≡ write_up side.now order.now at count (second_in side.now i)
        relays.old }
{
    let mut x = second_of(side, i);
    for p in at..at + count {
        put(relays, p, relay_at(order, x).0);
        x = prior_of(side, x);
    }
}

// Route i, written from `from` on: the front side's path down from the meeting relay, the back side's up from it.
// Gives the number of its relays.
fn write_route(
    relays: &mut [u16],
    front: &[u16],
    back: &[u16],
    order: &[u16],
    i: u16,
    from: usize,
) -> usize
    requires { from ≤ last_start }
    ensures value { result ≡ route_length front.now back.now i }
    ensures bound { result ≤ 2001 }
    ensures relays_left { relays.new ≡ write_route front.now back.now order.now i from
        relays.old }
{
    let low = count(front, i);
    let high = count(back, i);
    let meeting = end_of(front, i);
    write_down(relays, front, order, i, low, from);
    put(relays, from + low, relay_at(order, meeting).0);
    write_up(relays, back, order, i, high, from + low + 1);
    low + 1 + high
}

// Routes 1 to k one after another, and how many relays each has. Gives the number of relays written.
pub(crate) fn write_routes(
    counts: &mut [u16],
    relays: &mut [u16],
    front: &[u16],
    back: &[u16],
    order: &[u16],
    k: u16,
) -> usize
    requires { k ≤ 32 }
    ensures { written counts.new relays.new result
        ≡ write_from front.now back.now order.now k 0 0 counts.old relays.old }
{
    let mut from = 0;
    for i in 0..k {
        let length = write_route(relays, front, back, order, i + 1, from);
        put(counts, usize::from(i), length as u16);
        from += length;
    }
    from
}
