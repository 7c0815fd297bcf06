// The links at each relay as chains of half-links: half 2 i of link i is at its low end, half 2 i + 1 at its high end. A relay
// has its first half-link, and each half-link the next one at its relay; twice the number of links stands for none, as an
// `Option<u16>` would take twice the room.
ghost use Rattle.std.specs.Prelude.{◌+◌, ◌≤◌, ◌<◌, ◌≡◌, length, get_or};
ghost use Rattle.forests.specs.Chains.{Chainable, ChainedFrom};
ghost use Rattle.forests.specs.LinkCounts.{more_links, run_on, list_on, CountedFrom};
ghost use Rattle.forests.specs.Counts.{NoneBeyond};

use network::Relay;

// Relay r has so many links more.
fn count_links(r: Relay, more: u16, counts: &mut [u16])
    requires { (r.0 < length counts.old) × (get_or counts.old r.0 0 + more ≤ 3000) }
    ensures { counts.new ≡ more_links r.0 more counts.old }
{
    let at = r.0 as usize;
    let count = counts[at];
    counts[at] = count + more;
}

// Relay r has one link more, behind a run of links at `last`. Gives the run at r. The links of a table often stand in the order of
// one end: then a run is counted in hand, and no sum waits for the store of the one before it.
fn count_on(r: Relay, last: Relay, run: u16, counts: &mut [u16]) -> u16
    requires { (last.0 < length counts.old) × (get_or counts.old last.0 0 + run ≤ 3000) }
    ensures value { result ≡ run_on r.0 last.0 run }
    ensures counts_left { counts.new ≡ list_on r.0 last.0 run counts.old }
{
    if r == last {
        return run + 1;
    }
    count_links(last, run, counts);
    1
}

// From the last link down, so that what stands in `first` is the next half-link; the links at each relay are counted with it. It runs
// once for each link, and so it takes slices and no struct.
pub(crate) fn link_up(
    lows: &[u16],
    highs: &[u16],
    first: &mut [u16],
    nexts: &mut [u16],
    counts: &mut [u16],
)
    requires { Chainable lows.now highs.now first.old nexts.old
        × (length first.old ≤ length counts.old) × NoneBeyond 0 counts.old }
    ensures chained_from { ChainedFrom lows.now highs.now 0 first.new nexts.new }
    ensures counted_from { CountedFrom lows.now highs.now 0 counts.new }
{
    let mut last = Relay(0);
    let mut run = 0;
    for i in (0..lows.len()).rev() {
        let from = Relay(lows[i]);
        let to = Relay(highs[i]);
        count_links(from, 1, counts);
        run = count_on(to, last, run, counts);
        last = to;
        let low = 2 * i;
        let high = low + 1;
        let a = from.0 as usize;
        let b = to.0 as usize;
        nexts[low] = first[a];
        nexts[high] = first[b];
        first[a] = low as u16;
        first[b] = high as u16;
    }
    count_links(last, run, counts);
}
