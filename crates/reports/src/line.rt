// A report line, read from left to right: `(report R S (sees A B ..))` and its line end.
ghost use Rattle.std.specs.Prelude.{◌≡◌, ◌≤◌};
ghost use Rattle.definitions.specs.Form.{scan_form};
ghost use Rattle.definitions.specs.Reports.{report_front};
ghost use Rattle.text.specs.Scans.{number_gives};
ghost use Rattle.reports.specs.Lines.{SeenRead, TailRead, LineRead};

use network::Relay;
use text::scan;
use text::scan::Departure;

// The relays over this number are refused.
const HIGHEST_RELAY: u16 = 999;

// Those that a report sees, read: the last of them, the offset after them, and the offset where those above its relay begin.
#[derive(Clone, Copy, PartialEq, Eq)]
struct Seen {
    last: Option<u16>,
    next: usize,
    above: usize,
}

// A report line that was read: its relay, its serial, the offset where those seen begin, the greatest number that it names, the offset
// after it, and the offset where those above the relay begin.
#[derive(Clone, Copy, PartialEq, Eq)]
pub struct Report {
    pub relay: Relay,
    pub serial: u32,
    pub seen: usize,
    pub top: Relay,
    pub next: usize,
    pub above: usize,
}

// The line up to its serial, with the relay.
fn front(text: &[u8], at: usize) -> Result<(u16, usize), Departure>
    ensures { number_gives result ≡ scan_form text.now report_front at }
{
    let (relay, p) = scan::word_number(text, b"(report ", at)?;
    let q = scan::word(text, b" ", p)?;
    Ok((relay, q))
}

// Those seen, each after a space: they are to rise, up to 999, and not to be the relay itself. None where they depart or are bad. As many
// as there are, so there is no range.
fn read_seen(text: &[u8], relay: u16, at: usize) -> Option<Seen>
    ensures { SeenRead text.now relay at result }
{
    let mut p = at;
    let mut last: Option<u16> = None;
    let mut above = at;
    while scan::byte(text, p) == b' ' {
        let (x, q) = scan::number(text, p + 1).ok()?;
        if last.is_some_and(|last| x <= last) || x == relay || HIGHEST_RELAY < x {
            return None;
        }
        if x < relay {
            above = q;
        }
        last = Some(x);
        p = q;
    }
    Some(Seen {
        last,
        next: p,
        above,
    })
}

// The rest of a line from its word `(sees` on, of a relay and a serial that are in their ranges.
fn tail(text: &[u8], relay: u16, serial: u32, at: usize) -> Option<Report>
    requires { relay ≤ 999 }
    ensures { TailRead text.now relay serial at result }
{
    let start = scan::word(text, b" (sees", at).ok()?;
    let seen = read_seen(text, relay, start)?;
    let next = scan::word(text, b"))\n", seen.next).ok()?;
    Some(Report {
        relay: Relay(relay),
        serial,
        seen: start,
        top: Relay(relay.max(seen.last.unwrap_or(0))),
        next,
        above: seen.above,
    })
}

// A report line from an offset on; none where it departs from its form or is bad.
pub fn report_line(text: &[u8], at: usize) -> Option<Report>
    ensures { LineRead text.now at result }
{
    let (relay, p) = front(text, at).ok()?;
    if HIGHEST_RELAY < relay {
        return None;
    }
    let (serial, q) = scan::decimal::<9>(text, p).ok()?;
    let serial = u32::try_from(serial).ok()?;
    tail(text, relay, serial, q)
}
