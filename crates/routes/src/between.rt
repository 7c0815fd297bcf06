// The routes between two places, over a left table.
ghost use Rattle.std.specs.Prelude.{◌≡◌, ◌+◌, ◌-◌, ◌*◌, ◌≤◌, ◌<◌, length};
ghost use Rattle.sweep.specs.Side.{left_of, prior_start};
ghost use Rattle.routes.specs.Writing.{written};
ghost use Rattle.routes.specs.Between.{alive_in, one_tree_in, between_in, links_between};

use crate::links::write_links;
use crate::write::write_routes;
use network::Place;
use sweep::side::LeftTable;
use sweep::sweep;

// Each place after t up to s has a left entry of index k.
fn alive(table: LeftTable, k: u16, t: Place, s: Place) -> bool
    requires { t.0 ≤ s.0 }
    ensures { result ≡ alive_in (left_of table.entry) k t.0 (s.0 - t.0) }
{
    for v in (t.0..s.0).rev() {
        let found = table.left(k, Place(v + 1));
        if found.place.0 == 0 {
            return false;
        }
    }
    true
}

// p and q are in one tree of forest k.
pub(crate) fn one_tree(table: LeftTable, k: u16, p: Place, q: Place) -> bool
    ensures { result ≡ one_tree_in (left_of table.entry) k p.0 q.0 }
{
    if q.0 < p.0 {
        alive(table, k, q, p)
    } else {
        alive(table, k, p, q)
    }
}

// The routes from p to q: swept from the later of the two, written from p on, and their links. Gives the number of relays
// written.
pub(crate) fn between(
    a: &mut [u16],
    b: &mut [u16],
    table: LeftTable,
    k: u16,
    p: Place,
    q: Place,
    order: &[u16],
    counts: &mut [u16],
    relays: &mut [u16],
    links: &mut [u16],
) -> usize
    requires { (0 < p.0) × (p.0 ≤ table.n) × (0 < q.0) × (q.0 ≤ table.n) × (k ≤ 32)
        × (prior_start + (2 * table.n + 1) < length a.old) × (prior_start + (2 * table.n + 1) < length b.old) }
    ensures result_left { written counts.new relays.new result
        ≡ between_in a.old b.old (left_of table.entry) k p.0 q.0 order.now
        counts.old relays.old }
    ensures links_left { links.new
        ≡ links_between a.old b.old (left_of table.entry) k p.0 q.0
        links.old }
{
    if q.0 < p.0 {
        sweep(a, b, table, k, p, q);
        write_links(links, a, b, k);
        write_routes(counts, relays, a, b, order, k)
    } else {
        sweep(a, b, table, k, q, p);
        write_links(links, b, a, k);
        write_routes(counts, relays, b, a, order, k)
    }
}
