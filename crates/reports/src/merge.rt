// The second pass over a set: the links, where each end sees the other, in rising order. For each relay in turn those that it sees above
// itself are read again from the place kept for them; where another relay is asked whether it sees this one, the place of those that it
// sees moves on past the numbers that cannot come again.
ghost use Rattle.std.specs.Prelude.{◌≡◌, ◌≤◌, ◌<◌, length, set};
ghost use Rattle.reports.specs.Merges.{PassedOnward, SawBack, LinkTried, RowMerged, AllBelowIn, Mergeable, LinksMerged};
ghost use Rattle.reports.specs.Offsets.{numbers_from, seen_from};

use crate::places::Places;
use network::limits::LINKS;
use network::{Refusal, Relay};
use text::scan;

// Where a relay's numbers stand once those below another are passed, and whether the next of them is that one: the offset holds either
// way, so the two are no `Option`.
#[derive(Clone, Copy)]
struct Cursor {
    at: usize,
    there: bool,
}

// Passes the numbers below a: as many as there are, so there is no range.
fn pass_below(text: &[u8], at: usize, a: u16) -> Cursor
    ensures { PassedOnward text.now at a result.at result.there }
{
    let mut p = at;
    while let Ok((x, q)) = scan::word_number(text, b" ", p) {
        if a <= x {
            return Cursor {
                at: p,
                there: x == a,
            };
        }
        p = q;
    }
    Cursor {
        at: p,
        there: false,
    }
}

// Whether b sees a: not where b has not reported. The place kept for b moves past the numbers below a.
fn sees_back(text: &[u8], places: &mut [Places], a: Relay, b: Relay) -> bool
    requires { b.0 < length places.old }
    ensures { SawBack text.now a.0 b.0 places.old places.new result }
{
    let other = b.0 as usize;
    let kept = places[other];
    if kept.seen == 0 {
        return false;
    }
    let cursor = pass_below(text, kept.seen, a.0);
    places[other] = Places {
        seen: cursor.at,
        ..kept
    };
    cursor.there
}

// Stores a number where there is room for it. An index, as a proof knows nothing of an element that was lent by `get_mut`.
fn put_at(list: &mut [u16], i: usize, x: u16)
    ensures { list.new ≡ set list.old i x }
{
    if i < list.len() {
        list[i] = x;
    }
}

// The link a b behind those found so far, where b is above a and sees it. Returns how many there are then.
fn try_link(
    text: &[u8],
    places: &mut [Places],
    a: Relay,
    b: Relay,
    found: u16,
    lows: &mut [u16],
    highs: &mut [u16],
) -> u16
    requires { (b.0 < length places.old) × (found ≤ 3000) }
    ensures { LinkTried text.now a.0 b.0 found places.old lows.old highs.old
        places.new lows.new highs.new result }
{
    if b.0 <= a.0 || !sees_back(text, places, a, b) {
        return found;
    }
    let i = found as usize;
    put_at(lows, i, a.0);
    put_at(highs, i, b.0);
    found + 1
}

// The links with low end a, behind those found so far: what a sees above itself stands from an offset on. Returns how many there are
// then, or the refusal of more than a network may have.
fn merge_row(
    text: &[u8],
    a: Relay,
    start: usize,
    places: &mut [Places],
    found: u16,
    lows: &mut [u16],
    highs: &mut [u16],
) -> Result<u16, Refusal>
    requires few { found ≤ 3000 }
    requires all_below_in { AllBelowIn (length places.old) (numbers_from text.now start) }
    ensures { RowMerged text.now a.0 (numbers_from text.now start) found places.old lows.old highs.old
        places.new lows.new highs.new result }
{
    let mut p = start;
    let mut count = found;
    // Up to the end of the row, which no count tells.
    while count <= LINKS {
        let Ok((b, next)) = scan::word_number(text, b" ", p) else {
            return Ok(count);
        };
        count = try_link(text, places, a, Relay(b), count, lows, highs);
        p = next;
    }
    Err(Refusal::LinkCount)
}

// All links, in rising order of low, then high number, into the front of the two lists as far as they go. Returns how many there are,
// or the refusal of more than a network may have.
pub(crate) fn merge(
    text: &[u8],
    n: u16,
    places: &mut [Places],
    lows: &mut [u16],
    highs: &mut [u16],
) -> Result<u16, Refusal>
    requires { Mergeable text.now n places.old }
    ensures { LinksMerged (seen_from text.now places.old) n lows.old highs.old
        lows.new highs.new result }
{
    let mut count: u16 = 0;
    for a in 0..n {
        let own = places[a as usize];
        if own.seen == 0 {
            continue;
        }
        count = merge_row(text, Relay(a), own.above, places, count, lows, highs)?;
    }
    Ok(count)
}
