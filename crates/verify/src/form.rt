// The sheet's form, from left to right over the whole text: what the lines in front of the routes and behind them say, and how many
// routes there are. The routes themselves are looked at in walk.rt, once the form is known to be kept.
ghost use Rattle.std.specs.Prelude.{◌≡◌, ◌+◌, eqb, length};
ghost use Rattle.definitions.specs.Form.{byte_at, scan_form, scan_more};
ghost use Rattle.definitions.specs.Plan.{sheet_form};
ghost use Rattle.definitions.specs.SheetForm.{route_front, over_front, scan_numbers};
ghost use Rattle.text.specs.Scans.{word_gives, number_gives};
ghost use Rattle.verify.specs.Offsets.{behind, rest_of_line, two_lines, count_lines, kept_end};
ghost use Rattle.verify.specs.Gives.{head_gives, form_gives};
ghost use Rattle.verify.specs.Summary.{summary_of};

use network::Relay;
use program::line::number_word;
use routes::Wish;
use text::scan;
use text::scan::Departure;

// What a text of the form says: its first line, how many routes it has, its count of kept links, and the offset of the first route.
#[derive(Clone, Copy, PartialEq, Eq)]
pub(crate) struct Form {
    pub wish: Wish,
    pub routes: usize,
    pub kept: u16,
    pub first: usize,
}

// Numbers, each behind a space, up to a byte that is no space.
fn more_numbers(text: &[u8], at: usize) -> Result<usize, Departure>
    ensures { word_gives result ≡ behind (scan_more text.now at (length text.now)) }
{
    let mut p = at;
    for _number in 0..text.len() {
        if scan::byte(text, p) != b' ' {
            return Ok(p);
        }
        (_, p) = scan::number(text, p + 1)?;
    }
    Ok(p)
}

// Such numbers and the end of the line.
fn rest_of_line(text: &[u8], at: usize) -> Result<usize, Departure>
    ensures { word_gives result ≡ rest_of_line text.now at }
{
    let p = more_numbers(text, at)?;
    scan::word(text, b")\n", p)
}

// A `(route` line of two relays or more.
fn route_line(text: &[u8], at: usize) -> Result<usize, Departure>
    ensures { word_gives result ≡ behind (scan_numbers text.now route_front at) }
{
    let (_, p) = scan::word_number(text, b"(route ", at)?;
    let (_, q) = scan::word_number(text, b" ", p)?;
    rest_of_line(text, q)
}

// An `(over` line of one link or more.
fn over_line(text: &[u8], at: usize) -> Result<usize, Departure>
    ensures { word_gives result ≡ behind (scan_numbers text.now over_front at) }
{
    let (_, p) = scan::word_number(text, b"(over ", at)?;
    rest_of_line(text, p)
}

// Both lines of a route: the offset of its `(over` line and the offset behind that.
pub(crate) fn two_lines(text: &[u8], at: usize) -> Result<(usize, usize), Departure>
    ensures { number_gives result ≡ two_lines text.now at }
{
    let over = route_line(text, at)?;
    let next = over_line(text, over)?;
    Ok((over, next))
}

// Whether a `(route` line is due and not the `(kept` line: they part at the second byte.
fn route_due(text: &[u8], at: usize) -> bool
    ensures { result ≡ eqb (byte_at text.now (at + 1)) 114 }
{
    at < text.len() && scan::byte(text, at + 1) == b'r'
}

// The lines of all the routes: how many routes, and the offset behind them.
fn route_lines(text: &[u8], at: usize) -> Result<(usize, usize), Departure>
    ensures { number_gives result ≡ count_lines text.now 0 at (length text.now) }
{
    let mut p = at;
    for count in 0..text.len() {
        if !route_due(text, p) {
            return Ok((count, p));
        }
        (_, p) = two_lines(text, p)?;
    }
    Ok((text.len(), p))
}

// `(sheet (from FROM) (to TO) (k K))` and its line end, with the offset behind it.
fn head_line(text: &[u8]) -> Result<(Wish, usize), Departure>
    ensures { head_gives result ≡ scan_form text.now sheet_form 0 }
{
    let (from, to, p) = scan::pair_line(text, b"(sheet (from ", b") (to ", b") (k ", 0)?;
    let (k, first) = number_word(text, b"))\n", p)?;
    let wish = Wish {
        from: Relay(from),
        to: Relay(to),
        k,
    };
    Ok((wish, first))
}

// `(kept N)`, `(end)`, and nothing after it: the count of kept links, and the offset at the end.
fn kept_end(text: &[u8], at: usize) -> Result<(u16, usize), Departure>
    ensures { number_gives result ≡ kept_end text.now at }
{
    let (kept, p) = scan::word_number(text, b"(kept ", at)?;
    let q = scan::word(text, b")\n(end)\n", p)?;
    if q < text.len() {
        return Err(Departure(q));
    }
    Ok((kept, q))
}

// The whole text.
pub(crate) fn sheet_form(text: &[u8]) -> Result<Form, Departure>
    ensures { form_gives result ≡ summary_of text.now }
{
    let (wish, first) = head_line(text)?;
    let (routes, p) = route_lines(text, first)?;
    let (kept, _) = kept_end(text, p)?;
    Ok(Form {
        wish,
        routes,
        kept,
        first,
    })
}
