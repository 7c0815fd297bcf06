// Printing: the lines of a sheet, at an offset of a buffer that has the room.
// Each gives the offset behind what it wrote.
ghost use Rattle.std.specs.Prelude.{[], ◌∷◌, map, ◌≡◌, ◌+◌, ◌≤◌, pred, length, take};
ghost use Rattle.definitions.specs.Demand.{cut_up};
ghost use Rattle.definitions.specs.Form.{write_form, spaced};
ghost use Rattle.definitions.specs.Lists.{total};
ghost use Rattle.definitions.specs.Plan.{sheet_form, numbers_line, route_lines};
ghost use Rattle.text.specs.Put.{Put};
ghost use Rattle.plan.specs.SheetLines.{sheet_lines};

use program::line::{put_kept, put_triple};
use routes::Wish;
use text::put;

// `(sheet (from FROM) (to TO) (k K))` and its line end.
fn put_wish(output: &mut [u8], at: usize, wish: Wish) -> usize
    requires { at + length (write_form sheet_form (wish.from.0 ∷ wish.to.0 ∷ wish.k ∷ [])) ≤ length output.old }
    ensures { Put output.old at (write_form sheet_form (wish.from.0 ∷ wish.to.0 ∷ wish.k ∷ [])) output.new result }
{
    let from = usize::from(wish.from.0);
    let to = usize::from(wish.to.0);
    let k = usize::from(wish.k);
    put_triple(
        output,
        at,
        b"(sheet (from ",
        from,
        b") (to ",
        to,
        b") (k ",
        k,
        b"))\n",
    )
}

// Numbers, each after a space.
fn put_numbers(output: &mut [u8], at: usize, numbers: &[u16]) -> usize
    requires { at + length (spaced numbers.now) ≤ length output.old }
    ensures { Put output.old at (spaced numbers.now) output.new result }
{
    let mut p = at;
    for number in numbers {
        p = put::put_word_number(output, p, b" ", usize::from(*number));
    }
    p
}

// A word, numbers, and the end of the line.
fn put_line(output: &mut [u8], at: usize, name: &[u8], numbers: &[u16]) -> usize
    requires { at + length (numbers_line name.now numbers.now) ≤ length output.old }
    ensures { Put output.old at (numbers_line name.now numbers.now) output.new result }
{
    let p = put::put_word(output, at, name);
    let q = put_numbers(output, p, numbers);
    put::put_word(output, q, b")\n")
}

// `(route` with the relays of a route and `(over` with its links, each with its line end.
fn put_route(output: &mut [u8], at: usize, relays: &[u16], links: &[u16]) -> usize
    requires { at + length (route_lines (relays.now ∷ []) (links.now ∷ [])) ≤ length output.old }
    ensures { Put output.old at (route_lines (relays.now ∷ []) (links.now ∷ [])) output.new result }
{
    let p = put_line(output, at, b"(route", relays);
    put_line(output, p, b"(over", links)
}

// Both lines for each of the first k routes: the list of relays cut up by the counts, and the list of links by one less.
fn put_routes(
    output: &mut [u8],
    at: usize,
    k: usize,
    counts: &[u16],
    relays: &[u16],
    links: &[u16],
) -> usize
    requires k_in_bounds { k ≤ length counts.now }
    requires counts_in_bounds { total (take k counts.now) ≤ length relays.now }
    requires counts_in_bounds_2 { total (map pred (take k counts.now)) ≤ length links.now }
    requires links_in_bounds { at + length (route_lines (cut_up (take k counts.now) relays.now) (cut_up (map pred (take k counts.now)) links.now))
        ≤ length output.old }
    ensures { Put output.old at
        (route_lines (cut_up (take k counts.now) relays.now)
        (cut_up (map pred (take k counts.now)) links.now)) output.new result }
{
    let mut first = 0;
    let mut start = 0;
    let mut p = at;
    for i in 0..k {
        let size = usize::from(counts[i]);
        let last = first + size;
        let stop = start + size.saturating_sub(1);
        p = put_route(output, p, &relays[first..last], &links[start..stop]);
        first = last;
        start = stop;
    }
    p
}

// A whole sheet: the wish, the routes, the count of kept links, and the end.
pub(crate) fn put_sheet(
    output: &mut [u8],
    wish: Wish,
    counts: &[u16],
    relays: &[u16],
    links: &[u16],
    kept: usize,
) -> usize
    requires k_in_bounds { wish.k ≤ length counts.now }
    requires counts_in_bounds { total (take wish.k counts.now) ≤ length relays.now }
    requires counts_in_bounds_2 { total (map pred (take wish.k counts.now)) ≤ length links.now }
    requires kept_in_bounds { length (sheet_lines wish.from.0 wish.to.0 wish.k (cut_up (take wish.k counts.now) relays.now) (cut_up (map pred (take wish.k counts.now)) links.now) kept)
        ≤ length output.old }
    ensures { Put output.old 0
        (sheet_lines wish.from.0 wish.to.0 wish.k (cut_up (take wish.k counts.now) relays.now)
        (cut_up (map pred (take wish.k counts.now)) links.now) kept) output.new result }
{
    let p = put_wish(output, 0, wish);
    let q = put_routes(output, p, usize::from(wish.k), counts, relays, links);
    let s = put_kept(output, q, kept);
    put::put_end(output, s)
}
