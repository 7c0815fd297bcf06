// The C interface: each operation of documents 01 and 02 as a C function; link reports are in `link_reports`, and what programs print is in
// `printed`. What a code and the two entries of `answer` mean is said in specs/Reported.antt, and for C programs in include/nolkisei.h.
#![tactic(auto)]

ghost use Rattle.std.specs.Prelude.{◌≡◌};
ghost use Rattle.definitions.specs.Network.{pair_answer, table_check};
ghost use Rattle.definitions.specs.Text.{read_answer, lows_after, highs_after, states_after, write_answer, buffer_after};
ghost use Rattle.definitions.specs.Dimacs.{import_answer, import_lows, import_highs, import_states};
ghost use Rattle.definitions.specs.Order.{order_answer, relays_after, places_after};
ghost use Rattle.definitions.specs.Forests.{split_answer, forests_after, cut_answer, marks_after};
ghost use Rattle.definitions.specs.Over.{route_links_answer, route_links_counts, route_links_relays, route_links_links, route_links_scratch};
ghost use Rattle.definitions.specs.Route.{route_answer, counts_after, route_relays_after, scratch_after};
ghost use Rattle.definitions.specs.SheetTest.{sheet_answer};
ghost use Rattle.nolkisei.specs.Reported.{reported};

mod link_reports;
mod printed;
mod report;

use network::{Relay, Table};
use routes::Wish;

// The table check.
#[unsafe(no_mangle)]
pub extern "C" fn nolkisei_check(
    n: u16,
    lows: &[u16],
    highs: &[u16],
    states: &[u16],
    answer: &mut [u64; 2],
) -> u32
    ensures { reported (table_check n lows.now highs.now states.now) ≡ (result, answer.new) }
{
    let table = Table {
        n,
        lows,
        highs,
        states,
    };
    match table.check() {
        Ok(_) => report::give(0, 0, answer),
        Err(refusal) => report::refuse(refusal, answer),
    }
}

// The pair number of the link a b.
#[unsafe(no_mangle)]
pub extern "C" fn nolkisei_pair(a: u16, b: u16, answer: &mut [u64; 2]) -> u32
    ensures { reported (pair_answer a b) ≡ (result, answer.new) }
{
    match network::pair_number(Relay(a), Relay(b)) {
        Ok(number) => report::give(u64::from(number), 0, answer),
        Err(refusal) => report::refuse(refusal, answer),
    }
}

// Read: a text into a table and the states of its relays.
#[unsafe(no_mangle)]
pub extern "C" fn nolkisei_read(
    text: &[u8],
    lows: &mut [u16],
    highs: &mut [u16],
    states: &mut [u16],
    answer: &mut [u64; 2],
) -> u32
    ensures answer { reported (read_answer text.now lows.old highs.old states.old) ≡ (result, answer.new) }
    ensures low_list { lows.new ≡ lows_after text.now lows.old highs.old states.old }
    ensures high_list { highs.new ≡ highs_after text.now lows.old highs.old states.old }
    ensures state_list { states.new ≡ states_after text.now lows.old highs.old states.old }
{
    report::table(text::read(text, lows, highs, states), answer)
}

// Import: a drawing in the DIMACS edge format into a table, all relays in service.
#[unsafe(no_mangle)]
pub extern "C" fn nolkisei_import(
    text: &[u8],
    lows: &mut [u16],
    highs: &mut [u16],
    states: &mut [u16],
    answer: &mut [u64; 2],
) -> u32
    ensures answer { reported (import_answer text.now lows.old highs.old states.old) ≡ (result, answer.new) }
    ensures low_list { lows.new ≡ import_lows text.now lows.old highs.old states.old }
    ensures high_list { highs.new ≡ import_highs text.now lows.old highs.old states.old }
    ensures state_list { states.new ≡ import_states text.now lows.old highs.old states.old }
{
    report::table(import::import(text, lows, highs, states), answer)
}

// Write: the text of a table into the buffer.
#[unsafe(no_mangle)]
pub extern "C" fn nolkisei_write(
    n: u16,
    lows: &[u16],
    highs: &[u16],
    states: &[u16],
    buffer: &mut [u8],
    answer: &mut [u64; 2],
) -> u32
    ensures answer { reported (write_answer n lows.now highs.now states.now buffer.old)
        ≡ (result, answer.new) }
    ensures bytes { buffer.new ≡ buffer_after n lows.now highs.now states.now buffer.old }
{
    let table = Table {
        n,
        lows,
        highs,
        states,
    };
    match text::write(table, buffer) {
        Ok(size) => report::give(size as u64, 0, answer),
        Err(refusal) => report::refuse(refusal, answer),
    }
}

// Order: the relay at each place and the place of each relay.
#[unsafe(no_mangle)]
pub extern "C" fn nolkisei_order(
    n: u16,
    lows: &[u16],
    highs: &[u16],
    states: &[u16],
    relays: &mut [u16],
    places: &mut [u16],
    answer: &mut [u64; 2],
) -> u32
    ensures answer { reported (order_answer n lows.now highs.now states.now relays.old places.old)
        ≡ (result, answer.new) }
    ensures relays { relays.new
        ≡ relays_after n lows.now highs.now states.now relays.old places.old }
    ensures places { places.new
        ≡ places_after n lows.now highs.now states.now relays.old places.old }
{
    let table = Table {
        n,
        lows,
        highs,
        states,
    };
    match forests::order(table, relays, places) {
        Ok(()) => report::give(0, 0, answer),
        Err(refusal) => report::refuse(refusal, answer),
    }
}

// Split: the forest of each link.
#[unsafe(no_mangle)]
pub extern "C" fn nolkisei_split(
    n: u16,
    lows: &[u16],
    highs: &[u16],
    states: &[u16],
    forests: &mut [u16],
    answer: &mut [u64; 2],
) -> u32
    ensures answer { reported (split_answer n lows.now highs.now states.now forests.old)
        ≡ (result, answer.new) }
    ensures forests { forests.new ≡ forests_after n lows.now highs.now states.now forests.old }
{
    let table = Table {
        n,
        lows,
        highs,
        states,
    };
    match forests::split(table, forests) {
        Ok(forest) => report::give(u64::from(forest), 0, answer),
        Err(refusal) => report::refuse(refusal, answer),
    }
}

// Cut: a mark for each link, 1 where it is kept.
#[unsafe(no_mangle)]
pub extern "C" fn nolkisei_cut(
    n: u16,
    lows: &[u16],
    highs: &[u16],
    states: &[u16],
    k: u16,
    marks: &mut [u16],
    answer: &mut [u64; 2],
) -> u32
    ensures answer { reported (cut_answer n lows.now highs.now states.now k marks.old)
        ≡ (result, answer.new) }
    ensures marks { marks.new ≡ marks_after n lows.now highs.now states.now k marks.old }
{
    let table = Table {
        n,
        lows,
        highs,
        states,
    };
    match forests::cut(table, k, marks) {
        Ok(count) => report::give(u64::from(count), 0, answer),
        Err(refusal) => report::refuse(refusal, answer),
    }
}

// Route: k routes between two relays.
#[unsafe(no_mangle)]
pub extern "C" fn nolkisei_route(
    n: u16,
    lows: &[u16],
    highs: &[u16],
    states: &[u16],
    k: u16,
    from: u16,
    to: u16,
    counts: &mut [u16],
    relays: &mut [u16],
    scratch: &mut [u16],
    answer: &mut [u64; 2],
) -> u32
    ensures answer { reported
        (route_answer n lows.now highs.now states.now k from to counts.old relays.old scratch.old)
        ≡ (result, answer.new) }
    ensures counts { counts.new
        ≡ counts_after n lows.now highs.now states.now k from to counts.old relays.old
        scratch.old }
    ensures relays { relays.new
        ≡ route_relays_after n lows.now highs.now states.now k from to counts.old relays.old
        scratch.old }
    ensures scratch { scratch.new
        ≡ scratch_after n lows.now highs.now states.now k from to counts.old relays.old
        scratch.old }
{
    let table = Table {
        n,
        lows,
        highs,
        states,
    };
    let wish = Wish {
        from: Relay(from),
        to: Relay(to),
        k,
    };
    match routes::route(table, wish, counts, relays, scratch) {
        Ok(total) => report::give(total as u64, 0, answer),
        Err(refusal) => report::refuse(refusal, answer),
    }
}

// Route with links: k routes between two relays, and the indices of the links of each.
#[unsafe(no_mangle)]
pub extern "C" fn nolkisei_route_links(
    n: u16,
    lows: &[u16],
    highs: &[u16],
    states: &[u16],
    k: u16,
    from: u16,
    to: u16,
    counts: &mut [u16],
    relays: &mut [u16],
    links: &mut [u16],
    scratch: &mut [u16],
    answer: &mut [u64; 2],
) -> u32
    ensures answer { reported
        (route_links_answer n lows.now highs.now states.now k from to counts.old relays.old
        links.old scratch.old)
        ≡ (result, answer.new) }
    ensures counts { counts.new
        ≡ route_links_counts n lows.now highs.now states.now k from to counts.old relays.old
        links.old scratch.old }
    ensures relays { relays.new
        ≡ route_links_relays n lows.now highs.now states.now k from to counts.old relays.old
        links.old scratch.old }
    ensures links { links.new
        ≡ route_links_links n lows.now highs.now states.now k from to counts.old relays.old
        links.old scratch.old }
    ensures scratch { scratch.new
        ≡ route_links_scratch n lows.now highs.now states.now k from to counts.old relays.old
        links.old scratch.old }
{
    let table = Table {
        n,
        lows,
        highs,
        states,
    };
    let wish = Wish {
        from: Relay(from),
        to: Relay(to),
        k,
    };
    match routes::route_links(table, wish, counts, relays, links, scratch) {
        Ok(total) => report::give(total as u64, 0, answer),
        Err(refusal) => report::refuse(refusal, answer),
    }
}

// A sheet read back with its network: 1 where it holds, 0 where it does not.
#[unsafe(no_mangle)]
pub extern "C" fn nolkisei_verify(
    n: u16,
    lows: &[u16],
    highs: &[u16],
    states: &[u16],
    text: &[u8],
    answer: &mut [u64; 2],
) -> u32
    ensures { reported (sheet_answer n lows.now highs.now states.now text.now) ≡ (result, answer.new) }
{
    let table = Table {
        n,
        lows,
        highs,
        states,
    };
    match verify::check_sheet(table, text) {
        Ok(true) => report::give(1, 0, answer),
        Ok(false) => report::give(0, 0, answer),
        Err(refusal) => report::refuse(refusal, answer),
    }
}
