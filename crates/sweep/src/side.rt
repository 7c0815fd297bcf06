// The paths of one side of the sweep in one list: entry i is the end of path i as a place, entry SECONDS + i its last but one,
// entry LINKS + i the link between them; entry PRIORS + 2 x is the place before x on its path, and the entry behind it the link
// from there to x. Look-ups out of range give 0; what the sweep stores needs its room, and is not tested.
ghost use Rattle.std.specs.Prelude.{◌≡◌, ◌+◌, ◌-◌, ◌*◌, ◌≤◌, ◌<◌, pred, length, get_or, set};
ghost use Rattle.sweep.specs.Side.{entry_of, link_entry, left_of, prior_start, end_in, second_in, link_in, prior_in, prior_link_in, set_path, set_prior, extend_path, trade, trade_at, trade_from};

use network::Place;

// Where the last but ones start, behind the ends of the indices 0 to 32.
const SECONDS: usize = 33;

// Where the links between the last but ones and the ends start.
const LINKS: usize = 66;

// Where the places before each place start.
pub const PRIORS: usize = 99;

// What looking up left(i, v) gives: the neighbour's place, 0 for none, and the index of the link to it.
// The place 0 is no Option, since a path's end is stored as it stands here, the 0 too.
#[derive(Clone, Copy)]
pub struct Neighbour {
    pub place: Place,
    pub link: u16,
}

pub fn get(list: &[u16], at: usize) -> u16
    ensures { result ≡ get_or list.now at 0 }
{
    list.get(at).copied().unwrap_or(0)
}

// By a test and not by `get_mut`: after that of a slice, a proof knows only the slice's length.
pub fn put(list: &mut [u16], at: usize, x: u16)
    ensures { list.new ≡ set list.old at x }
{
    if at < list.len() {
        list[at] = x;
    }
}

// The place before v.
pub fn one_before(v: Place) -> Place
    requires { 0 < v.0 }
    ensures { result.0 ≡ v.0 - 1 }
{
    Place(v.0 - 1)
}

// A left table of n entries for each index, one after another: 0 for no neighbour, else one more than the index of the link to it;
// `ends` has the place of each link's earlier end.
#[derive(Clone, Copy)]
pub struct LeftTable<'a> {
    pub entries: &'a [u16],
    pub ends: &'a [u16],
    pub n: u16,
}

impl<'a> LeftTable<'a> {
    // What an entry stands for.
    fn neighbour(self, code: u16) -> Neighbour
        ensures { entry_of result ≡ link_entry self.entry.ends.now code }
    {
        if code == 0 {
            return Neighbour {
                place: Place(0),
                link: 0,
            };
        }
        let link = code - 1;
        Neighbour {
            place: Place(get(self.ends, usize::from(link))),
            link,
        }
    }

    // left(i, v), with its link.
    pub fn left(self, i: u16, v: Place) -> Neighbour
        ensures { entry_of result ≡ left_of self.entry i v.0 }
    {
        if i == 0 || v.0 == 0 || self.n < v.0 {
            return self.neighbour(0);
        }
        let row = (usize::from(i) - 1) * usize::from(self.n);
        self.neighbour(get(self.entries, row + usize::from(one_before(v).0)))
    }
}

pub fn end_of(side: &[u16], i: u16) -> Place
    ensures { result.0 ≡ end_in side.now i }
{
    Place(get(side, usize::from(i)))
}

pub fn second_of(side: &[u16], i: u16) -> Place
    ensures { result.0 ≡ second_in side.now i }
{
    Place(get(side, SECONDS + usize::from(i)))
}

pub fn link_of(side: &[u16], i: u16) -> u16
    ensures { result ≡ link_in side.now i }
{
    get(side, LINKS + usize::from(i))
}

// The last but one of path i, and the link to its end, of a side that is known to have them: beside `second_of` and `link_of`,
// since the sweep spends no test on each look-up.
fn second_at(side: &[u16], i: u16) -> Place
    requires { (i ≤ 32) × (prior_start ≤ length side.now) }
    ensures { result.0 ≡ second_in side.now i }
{
    Place(side[SECONDS + usize::from(i)])
}

fn link_at(side: &[u16], i: u16) -> u16
    requires { (i ≤ 32) × (prior_start ≤ length side.now) }
    ensures { result ≡ link_in side.now i }
{
    side[LINKS + usize::from(i)]
}

pub fn prior_of(side: &[u16], x: Place) -> Place
    ensures { result.0 ≡ prior_in side.now x.0 }
{
    Place(get(side, PRIORS + 2 * usize::from(x.0)))
}

pub fn prior_link_of(side: &[u16], x: Place) -> u16
    ensures { result ≡ prior_link_in side.now x.0 }
{
    get(side, PRIORS + (2 * usize::from(x.0) + 1))
}

// A new end, with the link to it, and a new last but one for path i.
pub(crate) fn set_path(side: &mut [u16], i: u16, end: Neighbour, second: Place)
    requires { (i ≤ 32) × (prior_start ≤ length side.old) }
    ensures { side.new ≡ set_path side.old i (entry_of end) second.0 }
{
    let at = usize::from(i);
    side[at] = end.place.0;
    side[SECONDS + at] = second.0;
    side[LINKS + at] = end.link;
}

fn set_prior(side: &mut [u16], x: Place, prior: Place, link: u16)
    requires { prior_start + (2 * x.0 + 1) < length side.old }
    ensures { side.new ≡ set_prior side.old x.0 prior.0 link }
{
    let at = usize::from(x.0);
    side[PRIORS + 2 * at] = prior.0;
    side[PRIORS + (2 * at + 1)] = link;
}

// Path j goes on from its end v to left(j, v).
pub(crate) fn extend(side: &mut [u16], table: LeftTable, v: Place, j: u16)
    requires { (j ≤ 32) × (prior_start + (2 * v.0 + 1) < length side.old) }
    ensures { side.new
        ≡ extend_path (left_of table.entry) v.0 j side.old }
{
    let second = second_at(side, j);
    let link = link_at(side, j);
    set_prior(side, v, second, link);
    let next = table.left(j, v);
    set_path(side, j, next, v);
}

// Index i, whose path ends at v, gets the path of index j with left(i, its last but one) as its end, and j gets the path of i.
fn trade(side: &mut [u16], table: LeftTable, v: Place, j: u16, i: u16)
    requires i_value { end_in side.old i ≡ v.0 }
    requires j_bound { (j ≤ 32) × (i ≤ 32) × (prior_start ≤ length side.old) }
    ensures { side.new
        ≡ trade (left_of table.entry) j i side.old }
{
    let second = second_at(side, i);
    let link = link_at(side, i);
    let moved = second_at(side, j);
    let next = table.left(i, moved);
    set_path(side, j, Neighbour { place: v, link }, second);
    set_path(side, i, next, moved);
}

fn trade_at(side: &mut [u16], table: LeftTable, v: Place, j: u16, i: u16)
    requires { (j ≤ 32) × (i ≤ 32) × (prior_start ≤ length side.old) }
    ensures { side.new
        ≡ trade_at (left_of table.entry) v.0 j i side.old }
{
    if end_of(side, i).0 == v.0 {
        trade(side, table, v, j, i);
    }
}

// Going down through the indices below j, each whose path ends at v trades with j.
pub(crate) fn trade_below(side: &mut [u16], table: LeftTable, v: Place, j: u16)
    requires { (j ≤ 32) × (prior_start ≤ length side.old) }
    ensures { side.new
        ≡ trade_from (left_of table.entry) v.0 j (pred j) side.old }
{
    for i in (1..j).rev() {
        trade_at(side, table, v, j, i);
    }
}
