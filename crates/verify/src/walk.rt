// The routes of a sheet whose form is kept, walked relay by relay and link by link. The relays met so far are marked, a bit for each
// number that a relay can have.
ghost use Rattle.std.specs.Prelude.{◌||◌, not, ◌≡◌, eqb};
ghost use Rattle.definitions.specs.SheetTest.{good_steps};
ghost use Rattle.lists.specs.Bitmap.{marked, mark};
ghost use Rattle.network.specs.Tables.{of_table};
ghost use Rattle.verify.specs.Walks.{NextHolds, may_step, Stepped, Walked, RouteWalked, RoutesWalked, walk_from, steps_of, end_steps};

use crate::form::{Form, two_lines};
use crate::link::{Link, link_joins, link_serves};
use network::{Network, Relay};
use routes::Wish;
use text::scan;

// The words of the marks: a bit for every number of 16 bits.
const MARK_WORDS: usize = 1024;

// How far the two lines of a route are read: the offset of what is left of the relays, and of the links.
#[derive(Clone, Copy, PartialEq, Eq)]
struct Offsets {
    relays: usize,
    links: usize,
}

// The next relay and the next link of a route, with the offsets behind them; or both have run out, or one of them has.
#[derive(Clone, Copy, PartialEq, Eq)]
enum NextStep {
    End,
    Uneven,
    Step {
        relay: Relay,
        link: Link,
        next: Offsets,
    },
}

// Marks a relay, and tells whether it was not marked before.
fn meet(relay: Relay, marks: &mut [u64; MARK_WORDS]) -> bool
    ensures fresh { result ≡ not (marked marks.old relay.0) }
    ensures marks { marks.new ≡ mark marks.old relay.0 }
{
    let number = usize::from(relay.0);
    let word = number / 64;
    let bit = number % 64;
    let bits = marks[word];
    marks[word] = bits | (1u64 << bit);
    (bits >> bit) % 2 != 1
}

// Whether the network has a step from relay a, which is not the end, to relay b over link l.
fn may_step(network: Network, to: Relay, a: Relay, b: Relay, l: Link) -> bool
    ensures { result ≡ may_step network.entry.table to.0 a.0 b.0 l.0 }
{
    link_joins(network, a, b, l) && link_serves(network, l) && a != to && b.0 < network.table.n
}

// One step, from relay a to relay b over link l. The last test marks b, so it is made only where the others hold.
fn step(
    network: Network,
    to: Relay,
    a: Relay,
    b: Relay,
    l: Link,
    marks: &mut [u64; MARK_WORDS],
) -> bool
    ensures { Stepped network.entry.table to.0 a.0 b.0 l.0 marks.old marks.new result }
{
    may_step(network, to, a, b, l) && (b == to || meet(b, marks))
}

// What comes next on the two lines of a route, from these offsets on.
fn next_step(text: &[u8], at: Offsets) -> NextStep
    ensures { NextHolds text.now at.relays at.links result }
{
    match (
        scan::word_number(text, b" ", at.relays),
        scan::word_number(text, b" ", at.links),
    ) {
        (Err(_), Err(_)) => NextStep::End,
        (Ok((relay, relays)), Ok((link, links))) => NextStep::Step {
            relay: Relay(relay),
            link: Link(link),
            next: Offsets { relays, links },
        },
        _ => NextStep::Uneven,
    }
}

// The steps at relay a: they count if it is the end, else the walk has failed.
fn steps_at(a: Relay, to: Relay, steps: usize) -> Option<usize>
    ensures { steps_of result ≡ end_steps a.0 to.0 steps }
{
    if a == to { Some(steps) } else { None }
}

// The walk from relay `first` on, whose next relays and links stand from these offsets on: its steps, none where it fails.
fn walk(
    network: Network,
    text: &[u8],
    to: Relay,
    first: Relay,
    start: Offsets,
    marks: &mut [u64; MARK_WORDS],
) -> Option<usize>
    ensures { Walked (of_table walk_from network.entry.table text.now to.0
        (marked marks.old) 0 first.0 start.relays start.links) (steps_of result) marks.new }
{
    let mut a = first;
    let mut at = start;
    // No walk takes so many steps: each reads two numbers.
    let most = text.len() + 1;
    for steps in 0..most {
        match next_step(text, at) {
            NextStep::End => return steps_at(a, to, steps),
            NextStep::Uneven => return None,
            NextStep::Step { relay, link, next } => {
                if !step(network, to, a, relay, link, marks) {
                    return None;
                }
                a = relay;
                at = next;
            }
        }
    }
    steps_at(a, to, most)
}

// The walk along a route whose two lines stand at these offsets: its steps, none where it fails.
fn route_steps(
    network: Network,
    text: &[u8],
    wish: Wish,
    lines: Offsets,
    marks: &mut [u64; MARK_WORDS],
) -> Option<usize>
    ensures { RouteWalked network.entry.table text.now wish.from.0 wish.to.0 lines.relays lines.links
        marks.old marks.new (steps_of result) }
{
    let Ok((first, relays)) = scan::word_number(text, b"(route ", lines.relays) else {
        return None;
    };
    let Ok(links) = scan::word(text, b"(over", lines.links) else {
        return None;
    };
    if Relay(first) != wish.from {
        return None;
    }
    let start = Offsets { relays, links };
    walk(network, text, wish.to, wish.from, start, marks)
}

// A route of so many steps is good after those before it (the definition's word).
fn good_steps(steps: usize, direct: bool) -> bool
    ensures { result ≡ good_steps steps direct }
{
    steps != 0 && !(steps == 1 && direct)
}

// Whether one of the routes was a single step, with this one among them.
fn direct_with(steps: usize, direct: bool) -> bool
    ensures { result ≡ (direct || eqb steps 1) }
{
    direct || steps == 1
}

// The routes of a text of the form, where these relays are marked.
fn all_routes(network: Network, text: &[u8], form: Form, marks: &mut [u64; MARK_WORDS]) -> bool
    ensures { RoutesWalked network.entry.table text.now form.wish.from.0 form.wish.to.0
        (marked marks.old) form.routes form.first result }
{
    let mut p = form.first;
    let mut direct = false;
    for _route in 0..form.routes {
        let Ok((over, next)) = two_lines(text, p) else {
            return false;
        };
        let lines = Offsets {
            relays: p,
            links: over,
        };
        let Some(steps) = route_steps(network, text, form.wish, lines, marks) else {
            return false;
        };
        if !good_steps(steps, direct) {
            return false;
        }
        direct = direct_with(steps, direct);
        p = next;
    }
    true
}

// The same, of which `from` alone is met beforehand.
pub(crate) fn routes_hold(network: Network, text: &[u8], form: Form) -> bool
    ensures { RoutesWalked network.entry.table text.now form.wish.from.0 form.wish.to.0
        (eqb form.wish.from.0) form.routes form.first result }
{
    let mut marks = [0; MARK_WORDS];
    meet(form.wish.from, &mut marks);
    all_routes(network, text, form, &mut marks)
}
