// The link lines of a text into the two lists of a table, and its end.
ghost use Rattle.std.specs.Prelude.{ℕ, List, [], ◌*◌, ◌≡◌, ◌≤◌, ◌<◌, length, take};
ghost use Rattle.definitions.specs.Network.{row_start};
ghost use Rattle.definitions.specs.Text.{read_links};
ghost use Rattle.network.specs.Seen.{Seen};
ghost use Rattle.text.specs.Rows.{LineReading, LinkScanned, LinkRead, LinksRead, EndRead, cleared_from};

use crate::mark::form_at;
use crate::scan::Due;
use network::limits::{FEW_RELAY_ROOM, FEW_RELAYS, FEWEST_RELAY_ROOM, FEWEST_RELAYS, RELAY_ROOM};
use network::{PairMarks, Refusal, Relay, row_starts};

// How a text gives its links, a line each: the form of a line, and the link that it stands for.
pub trait LinkLines {
    // The definition's reading of such a text, for so many relays.
    ghost reading: { List ℕ → ℕ → LineReading };

    // The next line, as link i: the ends of its link, on which the links before it decide, and the offset behind it.
    fn scan_link(text: &[u8], n: u16, i: usize, at: usize) -> Result<(Relay, Relay, usize), Refusal>
        ensures { LinkScanned (reading text.now n) n i at result };
}

// The lines of a network's text, a link each.
pub(crate) struct NetworkLines;

impl LinkLines for NetworkLines {
    ghost reading = { read_links };

    fn scan_link(
        text: &[u8],
        _n: u16,
        _i: usize,
        at: usize,
    ) -> Result<(Relay, Relay, usize), Refusal> {
        let (a, b, next) = form_at(text, at, Due::Link)?;
        Ok((Relay(a), Relay(b), next))
    }
}

// The next line, as link i behind those before it, whose pairs are marked.
fn read_link<L: LinkLines>(
    text: &[u8],
    i: usize,
    at: usize,
    lows: &mut [u16],
    highs: &mut [u16],
    marks: &mut PairMarks,
) -> Result<usize, Refusal>
    requires room { (i < length lows.old) × (i < length highs.old) }
    requires before { Seen marks.old.n marks.old.seen.now (take i lows.old) (take i highs.old) i }
    ensures read { LinkRead (L.reading text.now marks.old.n) marks.old.n i at lows.old highs.old lows.new
        highs.new marks.new.seen.now result }
    ensures same { marks.new.n ≡ marks.old.n }
{
    let (a, b, next) = L::scan_link(text, marks.n, i, at)?;
    if let Err(fault) = marks.check_link(a, b) {
        return Err(fault.of_link(i));
    }
    lows[i] = a.0;
    highs[i] = b.0;
    Ok(next)
}

// All m lines, where no pair is marked yet.
fn read_links<L: LinkLines>(
    text: &[u8],
    m: usize,
    at: usize,
    lows: &mut [u16],
    highs: &mut [u16],
    marks: &mut PairMarks,
) -> Result<usize, Refusal>
    requires room { (m ≤ length lows.old) × (m ≤ length highs.old) }
    requires before { Seen marks.old.n marks.old.seen.now [] [] 0 }
    ensures { LinksRead (L.reading text.now marks.old.n) m at lows.old highs.old lows.new
        highs.new result }
{
    let mut p = at;
    for i in 0..m {
        p = read_link::<L>(text, i, p, lows, highs, marks)?;
    }
    Ok(p)
}

// All m lines, with row starts for so many relays and so many words of marks.
fn read_links_in<L: LinkLines, const RELAYS: usize, const WORDS: usize>(
    text: &[u8],
    n: u16,
    m: usize,
    at: usize,
    lows: &mut [u16],
    highs: &mut [u16],
) -> Result<usize, Refusal>
    requires sizes { (n ≤ RELAYS) × (RELAYS ≤ 1000) × (row_start n ≤ 64 * WORDS) × (WORDS ≤ 7805) }
    requires room { (m ≤ length lows.old) × (m ≤ length highs.old) }
    ensures { LinksRead (L.reading text.now n) m at lows.old highs.old lows.new
        highs.new result }
{
    let rows = row_starts::front::<RELAYS>();
    let mut seen = [0u64; WORDS];
    let mut marks = PairMarks {
        n,
        rows: &rows,
        seen: &mut seen,
    };
    read_links::<L>(text, m, at, lows, highs, &mut marks)
}

// All m lines, with row starts and marks for as many relays as it takes, so that little is cleared for a small network.
pub fn read_all_links<L: LinkLines>(
    text: &[u8],
    n: u16,
    m: usize,
    at: usize,
    lows: &mut [u16],
    highs: &mut [u16],
) -> Result<usize, Refusal>
    requires { (n ≤ 1000) × (m ≤ length lows.old) × (m ≤ length highs.old) }
    ensures { LinksRead (L.reading text.now n) m at lows.old highs.old lows.new
        highs.new result }
{
    if n <= FEWEST_RELAYS {
        read_links_in::<L, FEWEST_RELAY_ROOM, 8>(text, n, m, at, lows, highs)
    } else if n <= FEW_RELAYS {
        read_links_in::<L, FEW_RELAY_ROOM, 127>(text, n, m, at, lows, highs)
    } else if n <= 512 {
        read_links_in::<L, RELAY_ROOM, 2044>(text, n, m, at, lows, highs)
    } else {
        read_links_in::<L, RELAY_ROOM, 7805>(text, n, m, at, lows, highs)
    }
}

// The end line, and nothing after it.
pub(crate) fn read_end(text: &[u8], at: usize) -> Result<usize, Refusal>
    ensures { EndRead text.now at result }
{
    let (_, _, p) = form_at(text, at, Due::End)?;
    if p < text.len() {
        return Err(Refusal::Form(p));
    }
    Ok(p)
}

// Zeros from an index on, or none where the list ends before it.
pub(crate) fn clear_from(list: &mut [u16], from: usize)
    ensures { list.new ≡ cleared_from from list.old }
{
    let from = from.min(list.len());
    list[from..].fill(0);
}
