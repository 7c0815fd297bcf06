// Route where all but 13 is passed, in small arrays or in large ones.
ghost use Rattle.std.specs.Prelude.{◌≡◌, ◌+◌, ◌*◌, ◌≤◌, ◌<◌, length};
ghost use Rattle.definitions.specs.Lists.{zeroed};
ghost use Rattle.sweep.specs.Side.{left_of, prior_start};
ghost use Rattle.routes.specs.Wishes.{of_wish};
ghost use Rattle.routes.specs.Answers.{route_outcome, answered, answer_in, tree_answer, Asked, NoneGiven, Given};

use crate::Wish;
use crate::between::{between, one_tree};
use forests::clear::clear;
use forests::left::left_table;
use forests::scan::{is_small, place_of, scan};
use network::limits::{FEW_LINKS, FEW_RELAY_ROOM, LINK_ROOM, RELAY_ROOM};
use network::{Network, Place, Refusal};
use sweep::side::LeftTable;
use sweep::sides::{SIDE_ROOM, SMALL_SIDE_ROOM};

// The routes from p to q, or 13. The lists that are lent stay parameters, here and in the functions below: of a struct that holds
// them by `&mut`, a contract could say what is left in each by its position alone.
fn answer(
    a: &mut [u16],
    b: &mut [u16],
    table: LeftTable,
    k: u16,
    p: Place,
    q: Place,
    order: &[u16],
    counts: &mut [u16],
    relays: &mut [u16],
    links: &mut [u16],
) -> Result<usize, Refusal>
    requires { (0 < p.0) × (p.0 ≤ table.n) × (0 < q.0) × (q.0 ≤ table.n) × (k ≤ 32)
        × (prior_start + (2 * table.n + 1) < length a.old) × (prior_start + (2 * table.n + 1) < length b.old) }
    ensures { answered counts.new relays.new links.new (route_outcome result)
        ≡ answer_in a.old b.old (left_of table.entry) k p.0 q.0
        order.now counts.old relays.old links.old }
{
    if !one_tree(table, k, p, q) {
        return Err(Refusal::NotOneTree);
    }
    Ok(between(a, b, table, k, p, q, order, counts, relays, links))
}

// The arrays that Route works in: the order, the places, the forest number of each link, and the two sides of the sweep.
#[derive(Drop)]
pub(crate) struct Arrays<const RELAYS: usize, const LINKS: usize, const SIDE: usize> {
    order: [u16; RELAYS],
    places: [u16; RELAYS],
    pub numbers: [u16; LINKS],
    a: [u16; SIDE],
    b: [u16; SIDE],
}

impl<const RELAYS: usize, const LINKS: usize, const SIDE: usize> Arrays<RELAYS, LINKS, SIDE> {
    // All zeros.
    pub(crate) fn new() -> Arrays<RELAYS, LINKS, SIDE>
        ensures { NoneGiven RELAYS LINKS SIDE result.order result.places result.numbers result.a result.b }
    {
        Arrays {
            order: [0; RELAYS],
            places: [0; RELAYS],
            numbers: [0; LINKS],
            a: [0; SIDE],
            b: [0; SIDE],
        }
    }

    // The order, the places and the forest numbers.
    pub(crate) fn scan(&mut self, network: Network)
        requires empty { NoneGiven RELAYS LINKS SIDE self.old.order self.old.places self.old.numbers self.old.a self.old.b }
        requires fits { (network.table.n ≤ RELAYS) × (length network.table.lows.now ≤ LINKS)
            × (prior_start + (2 * network.table.n + 1) < SIDE) }
        ensures { Given network.entry.table self.new.order self.new.places self.new.numbers self.new.a self.new.b }
    {
        scan(
            network,
            &mut self.order,
            &mut self.places,
            &mut self.numbers,
        );
    }

    // Route where all but 13 is passed; `numbers` has the earlier end of each link afterwards, as a place.
    pub(crate) fn route(
        &mut self,
        network: Network,
        wish: Wish,
        counts: &mut [u16],
        relays: &mut [u16],
        links: &mut [u16],
        scratch: &mut [u16],
    ) -> Result<usize, Refusal>
        requires asked { Asked network.table wish counts.old relays.old scratch.old }
        requires given { Given network.table self.old.order self.old.places self.old.numbers self.old.a self.old.b }
        ensures result_left { answered counts.new relays.new links.new (route_outcome result)
            ≡ of_wish tree_answer network.entry.table wish counts.old relays.old links.old }
        ensures scratch_left { scratch.new ≡ zeroed scratch.old }
    {
        let Arrays {
            order,
            places,
            numbers,
            a,
            b,
        } = self;
        let n = network.table.n;
        let entries = usize::from(wish.k) * usize::from(n);
        clear(scratch, entries);
        left_table(scratch, network.table, wish.k, places, numbers);
        let p = place_of(places, wish.from);
        let q = place_of(places, wish.to);
        let table = LeftTable {
            entries: scratch,
            ends: numbers,
            n,
        };
        let result = answer(a, b, table, wish.k, p, q, order, counts, relays, links);
        let whole = scratch.len();
        clear(scratch, whole);
        result
    }
}

// Route where all but 13 is passed.
pub(crate) fn route_accepted(
    network: Network,
    wish: Wish,
    counts: &mut [u16],
    relays: &mut [u16],
    links: &mut [u16],
    scratch: &mut [u16],
) -> Result<usize, Refusal>
    requires { Asked network.table wish counts.old relays.old scratch.old }
    ensures result_left { answered counts.new relays.new links.new (route_outcome result)
        ≡ of_wish tree_answer network.entry.table wish counts.old relays.old links.old }
    ensures scratch_left { scratch.new ≡ zeroed scratch.old }
{
    if is_small(network.table.n, network.table.lows.len()) {
        let mut few = Arrays::<FEW_RELAY_ROOM, FEW_LINKS, SMALL_SIDE_ROOM>::new();
        few.scan(network);
        few.route(network, wish, counts, relays, links, scratch)
    } else {
        let mut arrays = Arrays::<RELAY_ROOM, LINK_ROOM, SIDE_ROOM>::new();
        arrays.scan(network);
        arrays.route(network, wish, counts, relays, links, scratch)
    }
}
