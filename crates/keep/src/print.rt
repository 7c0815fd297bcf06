// Printing: the lines of a list of links, at an offset of a buffer that has the room.
// Each gives the offset behind what it wrote.
ghost use Rattle.std.specs.Prelude.{◌&&◌, [], ◌∷◌, ◌+◌, ◌≤◌, ◌<◌, length};
ghost use Rattle.definitions.specs.Network.{serves};
ghost use Rattle.definitions.specs.Form.{write_form};
ghost use Rattle.definitions.specs.Keep.{idle_count, lease_line, lease_lines};
ghost use Rattle.text.specs.Put.{Put};
ghost use Rattle.keep.specs.Lines.{triple_form, count_lines, list_lines};

use crate::idle::{both_serve, idle_links};
use network::{Network, Relay};
use program::line;
use program::line::{put_kept, put_single};
use text::put;

// A line of a link's index and its two relays.
fn put_triple(output: &mut [u8], at: usize, front: &[u8], i: usize, a: Relay, b: Relay) -> usize
    requires { at + length (write_form (triple_form front.now) (i ∷ a.0 ∷ b.0 ∷ [])) ≤ length output.old }
    ensures { Put output.old at (write_form (triple_form front.now) (i ∷ a.0 ∷ b.0 ∷ [])) output.new result }
{
    let low = usize::from(a.0);
    let high = usize::from(b.0);
    line::put_triple(output, at, front, i, b" ", low, b" ", high, b")\n")
}

// The line of a link: kept with mark 1; without it dropped if both its ends are in service, and idle if one is withdrawn.
fn put_link(
    output: &mut [u8],
    at: usize,
    states: &[u16],
    mark: u16,
    i: usize,
    a: Relay,
    b: Relay,
) -> usize
    requires a_in_bounds { (a.0 < length states.now) × (b.0 < length states.now) }
    requires b_in_bounds { at + length (lease_line mark (serves states.now a.0 && serves states.now b.0) i a.0 b.0) ≤ length output.old }
    ensures { Put output.old at
        (lease_line mark (serves states.now a.0 && serves states.now b.0) i a.0 b.0) output.new result }
{
    if mark == 1 {
        put_triple(output, at, b"(keep ", i, a, b)
    } else if both_serve(states, a, b) {
        put_triple(output, at, b"(drop ", i, a, b)
    } else {
        put_triple(output, at, b"(idle ", i, a, b)
    }
}

// A line for each link, in the order of the table.
fn put_links(output: &mut [u8], at: usize, network: Network, marks: &[u16]) -> usize
    requires marks_in_bounds { length network.table.lows.now ≤ length marks.now }
    requires output_in_bounds { let t = network.table in at + length (lease_lines t.lows.now t.highs.now t.states.now marks.now 0 (length t.lows.now)) ≤ length output.old }
    ensures { let t = network.entry.table in Put output.old at (lease_lines t.lows.now t.highs.now t.states.now marks.now 0 (length t.lows.now)) output.new result }
{
    let table = network.table;
    let mut p = at;
    for i in 0..table.lows.len() {
        let low = Relay(table.lows[i]);
        let high = Relay(table.highs[i]);
        p = put_link(output, p, table.states, marks[i], i, low, high);
    }
    p
}

// How many links are kept, how many dropped and how many idle, and the end.
fn put_counts(output: &mut [u8], at: usize, kept: usize, dropped: usize, idle: usize) -> usize
    requires { at + length (count_lines kept dropped idle) ≤ length output.old }
    ensures { Put output.old at (count_lines kept dropped idle) output.new result }
{
    let p = put_kept(output, at, kept);
    let q = put_single(output, p, b"(dropped ", dropped, b")\n");
    let s = put_single(output, q, b"(withdrawn ", idle, b")\n");
    put::put_end(output, s)
}

// A whole list: k, the links, and their counts.
pub(crate) fn put_list(
    output: &mut [u8],
    k: usize,
    network: Network,
    marks: &[u16],
    kept: usize,
) -> usize
    requires marks_in_bounds { length network.table.lows.now ≤ length marks.now }
    requires kept_in_bounds { let t = network.table in kept + idle_count t.lows.now t.highs.now t.states.now ≤ length t.lows.now }
    requires output_in_bounds { let t = network.table in length (list_lines k t.lows.now t.highs.now t.states.now marks.now kept) ≤ length output.old }
    ensures { let t = network.entry.table in Put output.old 0 (list_lines k t.lows.now t.highs.now t.states.now marks.now kept) output.new result }
{
    let idle = idle_links(network);
    let dropped = network.table.lows.len() - kept - idle;
    let p = put_single(output, 0, b"(lease (k ", k, b"))\n");
    let q = put_links(output, p, network, marks);
    put_counts(output, q, kept, dropped, idle)
}
