// The left table: entry (i − 1) × n + (v − 1) is one more than the index of v's link to left(i, v), 0 for none, for the forests
// 1 to k and the places 1 to n. Beside it the earlier end of each of these links: left(i, v) itself. An entry is a number and no
// `Option<u16>`, since it stands in a list of numbers that the caller lends.
ghost use Rattle.std.specs.Prelude.{suc, ◌<◌, ◌≡◌, length, set};
ghost use Rattle.forests.specs.Left.{left_index, Enterable, entered, end_entered, LeftOfSome, LeftOfEach};

use crate::scan::place_of;
use network::{Place, Relay, Table};

// Link `link` leads from v to left(forest, v): the one place that writes entries.
fn put_left(table: &mut [u16], n: u16, forest: u16, v: Place, link: usize)
    requires { (0 < forest) × (0 < v.0) × (left_index n forest v.0 < length table.old) × (link < 3000) }
    ensures { table.new ≡ set table.old (left_index n forest v.0) (suc link) }
{
    let row = (forest as usize - 1) * (n as usize);
    let at = row + (v.0 as usize - 1);
    table[at] = (link + 1) as u16;
}

// Link i is entered if its forest is one of the first k; its forest number then gives way to the place of its earlier end. A link
// with a withdrawn end is in no forest: its number is 0 and stays. It runs once for each link, and so it takes slices and no struct.
fn enter_link(
    table: &mut [u16],
    n: u16,
    k: u16,
    i: usize,
    lows: &[u16],
    highs: &[u16],
    places: &[u16],
    forests: &mut [u16],
)
    requires { Enterable n k i lows.now highs.now places.now forests.old table.old }
    ensures table_left { table.new
        ≡ entered n k i lows.now highs.now places.now forests.old table.old }
    ensures forests_left { forests.new
        ≡ end_entered k i lows.now highs.now places.now forests.old }
{
    let p = place_of(places, Relay(lows[i]));
    let q = place_of(places, Relay(highs[i]));
    let forest = forests[i];
    if 1 <= forest && forest <= k {
        forests[i] = p.0.min(q.0);
        put_left(table, n, forest, Place(p.0.max(q.0)), i);
    }
}

// The left table of an accepted network, from the places and the forest numbers that the scan gives, into zeros. Of the network's
// table the states are not read: the condition is over any list of states.
pub fn left_table(entries: &mut [u16], table: Table, k: u16, places: &[u16], forests: &mut [u16])
    requires { LeftOfSome table.n k table.lows.now table.highs.now places.now forests.old entries.old }
    ensures { LeftOfEach table.entry.n k table.entry.lows.now table.entry.highs.now
        places.now forests.old entries.old entries.new forests.new }
{
    let Table { n, lows, highs, .. } = table;
    for i in 0..lows.len() {
        enter_link(entries, n, k, i, lows, highs, places, forests);
    }
}
