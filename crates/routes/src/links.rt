// Writes the links of the routes out of the two sides' lists.
ghost use Rattle.std.specs.Prelude.{◌≡◌, ◌+◌, ◌≤◌};
ghost use Rattle.sweep.specs.Side.{second_in, link_in};
ghost use Rattle.routes.specs.Writing.{last_start, last_turn, count_in};
ghost use Rattle.routes.specs.WrittenLinks.{links_down, links_up, route_links, links_from};

use crate::write::count;
use sweep::side::{link_of, prior_link_of, prior_of, put, second_of};

// The `count` links of path i, written downwards to `from`. The relays are written by a function of their own (`write_down`): each has
// its definition, and here the link goes along from place to place.
fn links_down(links: &mut [u16], side: &[u16], i: u16, count: usize, from: usize)
    requires { (count ≤ 1000) × (from ≤ last_start) }
    ensures { links.new ≡ links_down side.now from count (link_in side.now i)
        (second_in side.now i) links.old }
{
    let mut link = link_of(side, i);
    let mut x = second_of(side, i);
    for c in (0..count).rev() {
        put(links, from + c, link);
        link = prior_link_of(side, x);
        x = prior_of(side, x);
    }
}

// The `count` links of path i, written upwards from `at`.
fn links_up(links: &mut [u16], side: &[u16], i: u16, count: usize, at: usize)
    requires { (count ≤ 1000) × (at ≤ last_turn) }
    ensures { links.new ≡ links_up side.now at count (link_in side.now i)
        (second_in side.now i) links.old }
{
    let mut link = link_of(side, i);
    let mut x = second_of(side, i);
    for p in at..at + count {
        put(links, p, link);
        link = prior_link_of(side, x);
        x = prior_of(side, x);
    }
}

// The links of route i, written from `from` on: those of the front side's path, then those of the back side's. Gives their number.
fn write_route_links(links: &mut [u16], front: &[u16], back: &[u16], i: u16, from: usize) -> usize
    requires { from ≤ last_start }
    ensures value { result ≡ count_in front.now i + count_in back.now i }
    ensures bound { result ≤ 2000 }
    ensures links_left { links.new ≡ route_links front.now back.now i from links.old }
{
    let low = count(front, i);
    let high = count(back, i);
    links_down(links, front, i, low, from);
    links_up(links, back, i, high, from + low);
    low + high
}

// The links of routes 1 to k one after another. Where no list is lent there is nothing to do.
pub(crate) fn write_links(links: &mut [u16], front: &[u16], back: &[u16], k: u16)
    requires { k ≤ 32 }
    ensures { links.new ≡ links_from front.now back.now k 0 0 links.old }
{
    if links.is_empty() {
        return;
    }
    let mut from = 0;
    for i in 0..k {
        from += write_route_links(links, front, back, i + 1, from);
    }
}
