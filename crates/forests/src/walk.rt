// A relay is placed: each link from it to a waiting relay raises that relay's count by one, and its count before is the link's
// forest number.
ghost use Rattle.std.specs.Prelude.{◌≡◌, get_or};
ghost use Rattle.forests.specs.Buckets.{Buckets};
ghost use Rattle.forests.specs.Walk.{across_of, Visitable, Visited, Walkable, Walked};

use crate::buckets::{leave, raise};
use crate::counts::number;
use network::Relay;

// The end of a link that its half h is not at.
fn far_end(h: usize, low: Relay, high: Relay) -> Relay
    ensures { result.0 ≡ across_of h low.0 high.0 }
{
    if h % 2 == 0 { high } else { low }
}

// The half-link h. Gives the next one at its relay.
fn visit(
    h: usize,
    lows: &[u16],
    highs: &[u16],
    nexts: &[u16],
    counts: &mut [u16],
    bits: &mut [u64],
    forests: &mut [u16],
) -> usize
    requires { Visitable h lows.now highs.now nexts.now counts.old bits.old forests.old }
    ensures { Visited h lows.now highs.now nexts.now counts.old counts.new
        bits.new forests.old forests.new result }
{
    let i = h / 2;
    let low = Relay(lows[i]);
    let high = Relay(highs[i]);
    let count = raise(far_end(h, low, high), counts, bits);
    forests[i] = number(count, forests[i]);
    usize::from(nexts[h])
}

// x gets its place: it waits no more, and its links are walked. Gives its count before.
pub(crate) fn walk(
    x: Relay,
    lows: &[u16],
    highs: &[u16],
    first: &[u16],
    nexts: &[u16],
    counts: &mut [u16],
    bits: &mut [u64],
    forests: &mut [u16],
) -> u16
    requires { Walkable x.0 lows.now highs.now first.now nexts.now counts.old bits.old forests.old }
    ensures value { result ≡ get_or counts.old x.0 0 }
    ensures walked { Walked x.0 lows.now highs.now counts.old counts.new
        forests.old forests.new }
    ensures buckets { Buckets counts.new bits.new }
{
    let count = leave(x, counts, bits);
    let end = 2 * lows.len();
    let mut h = usize::from(first[usize::from(x.0)]);
    // A walk along a chain, no range.
    while h < end {
        h = visit(h, lows, highs, nexts, counts, bits, forests);
    }
    count
}
