// Read and Write of document 01: a network's text to its table and back.
#![tactic(auto)]

ghost use Rattle.std.specs.Prelude.{[], ◌≡◌, ◌+◌, ◌≤◌, ◌<◌, length};
ghost use Rattle.definitions.specs.Lists.{overwrite};
ghost use Rattle.definitions.specs.Text.{
  sized,
  read_links,
  read_network,
  read_answer,
  lows_after,
  highs_after,
  states_after,
  text_of,
  write_answer,
  buffer_after,
};
ghost use Rattle.network.specs.Tables.{of_table, OfTable};
ghost use Rattle.text.specs.Answers.{read_outcome, write_outcome};
ghost use Rattle.text.specs.Marks.{Writable};
ghost use Rattle.text.specs.Put.{Put};
ghost use Rattle.text.specs.Rows.{Cleared};
ghost use Rattle.text.specs.Sizes.{SizeChecked};
ghost use Rattle.text.specs.Tables.{TableRead};

mod mark;
pub mod outs;
pub mod put;
pub mod rows;
pub mod scan;

use network::limits::{LINKS, RELAYS};
use network::{Network, Refusal, Table};
use put::WriteMark;
use rows::NetworkLines;
use scan::Due;

// The size of a table: the number of relays and of links. Read answers it.
#[derive(Clone, Copy, PartialEq, Eq)]
pub struct TableSize {
    pub relays: u16,
    pub links: u16,
}

// The length of an accepted network's text: the words of a header line have 25 bytes, those of a link line 9, and the end line
// has 6. The `out` lines are counted apart.
fn text_length(network: Network) -> usize
    ensures { result ≡ length (of_table text_of network.entry.table) }
{
    let table = network.table;
    let header = put::pair_length(25, table.n as usize, table.lows.len());
    let mut total = header + 6 + put::outs_length(table.states);
    for i in 0..table.lows.len() {
        total += put::pair_length(9, table.lows[i] as usize, table.highs[i] as usize);
    }
    total
}

// The whole text of a table, from the buffer's first byte on: one write mark moves over it, form by form.
fn put_text(buffer: &mut [u8], table: Table) -> usize
    requires { OfTable (Writable buffer.old) table }
    ensures { Put buffer.old 0 (of_table text_of table.entry) buffer.new result }
{
    let mut mark = WriteMark { next: 0, links: 0 };
    put::move_mark(buffer, &mut mark, Due::Header, table);
    // The mark counts the links: a range would count them a second time.
    while mark.links < table.lows.len() {
        put::move_mark(buffer, &mut mark, Due::Link, table);
    }
    put::move_mark(buffer, &mut mark, Due::Out, table);
    put::move_mark(buffer, &mut mark, Due::End, table);
    mark.next
}

// Write of an accepted network, into a buffer with room for its text. Returns the text's length.
pub fn write_accepted(network: Network, buffer: &mut [u8]) -> usize
    requires { length (of_table text_of network.table) ≤ length buffer.old }
    ensures value { result ≡ length (of_table text_of network.entry.table) }
    ensures buffer_left { buffer.new ≡ overwrite (of_table text_of network.entry.table) buffer.old }
{
    put_text(buffer, network.table)
}

// Writes the text of a table into the buffer.
pub fn write(table: Table, buffer: &mut [u8]) -> Result<usize, Refusal>
    ensures answer { write_outcome result ≡ of_table write_answer table.entry buffer.old }
    ensures bytes { buffer.new ≡ of_table buffer_after table.entry buffer.old }
{
    let network = table.check()?;
    if buffer.len() < text_length(network) {
        return Err(Refusal::Room);
    }
    Ok(write_accepted(network, buffer))
}

// Whether a table's size is within the limits, and lists of these lengths have the room.
pub fn size_check(size: TableSize, lows: usize, highs: usize, states: usize) -> Result<(), Refusal>
    ensures { SizeChecked size.relays size.links lows highs states result }
{
    if size.relays < 1 || RELAYS < size.relays {
        return Err(Refusal::RelayCount);
    }
    if LINKS < size.links {
        return Err(Refusal::LinkCount);
    }
    let links = size.links as usize;
    if lows < links || highs < links || states < size.relays as usize {
        return Err(Refusal::TableRoom);
    }
    Ok(())
}

// The link lines, the states and the end, for a header within the limits.
fn read_lines(
    text: &[u8],
    size: TableSize,
    at: usize,
    lows: &mut [u16],
    highs: &mut [u16],
    states: &mut [u16],
) -> Result<TableSize, Refusal>
    requires few { size.relays ≤ 1000 }
    requires room { (size.links ≤ length lows.old) × (size.links ≤ length highs.old) × (size.relays ≤ length states.old) }
    ensures { TableRead (read_links text.now size.relays [] [] at size.links) lows.old highs.old
        states.old lows.new highs.new states.new result }
{
    let p = rows::read_all_links::<NetworkLines>(
        text,
        size.relays,
        size.links as usize,
        at,
        lows,
        highs,
    )?;
    outs::read_states(text, size.relays, p, states)?;
    Ok(size)
}

// All that comes after a header line with these two numbers.
fn read_rows(
    text: &[u8],
    size: TableSize,
    at: usize,
    lows: &mut [u16],
    highs: &mut [u16],
    states: &mut [u16],
) -> Result<TableSize, Refusal>
    ensures { TableRead (sized size.relays size.links (length lows.old) (length highs.old) (length states.old)
        (read_links text.now size.relays [] [] at size.links)) lows.old highs.old states.old lows.new
        highs.new states.new result }
{
    size_check(size, lows.len(), highs.len(), states.len())?;
    read_lines(text, size, at, lows, highs, states)
}

// A text into the front of the three lists; what is behind the links and states read is left as it falls.
fn read_table(
    text: &[u8],
    lows: &mut [u16],
    highs: &mut [u16],
    states: &mut [u16],
) -> Result<TableSize, Refusal>
    ensures { TableRead (read_network text.now (length lows.old) (length highs.old)
        (length states.old)) lows.old highs.old states.old lows.new
        highs.new states.new result }
{
    let (relays, links, p) = mark::form_at(text, 0, Due::Header)?;
    read_rows(text, TableSize { relays, links }, p, lows, highs, states)
}

// Zeros behind what stands of a table: the links in the first two lists, the states in the third.
pub fn clear_behind(
    links: usize,
    relays: usize,
    lows: &mut [u16],
    highs: &mut [u16],
    states: &mut [u16],
)
    ensures { Cleared links relays lows.old highs.old states.old lows.new
        highs.new states.new }
{
    rows::clear_from(lows, links);
    rows::clear_from(highs, links);
    rows::clear_from(states, relays);
}

// Reads a text into a table. The three lists stay parameters: C lends them one by one, and each has a clause of its own.
pub fn read(
    text: &[u8],
    lows: &mut [u16],
    highs: &mut [u16],
    states: &mut [u16],
) -> Result<TableSize, Refusal>
    ensures answer { read_outcome result ≡ read_answer text.now lows.old highs.old
        states.old }
    ensures low_list { lows.new ≡ lows_after text.now lows.old highs.old
        states.old }
    ensures high_list { highs.new ≡ highs_after text.now lows.old highs.old
        states.old }
    ensures state_list { states.new ≡ states_after text.now lows.old highs.old
        states.old }
{
    let answer = read_table(text, lows, highs, states);
    let kept = answer.unwrap_or(TableSize {
        relays: 0,
        links: 0,
    });
    clear_behind(
        kept.links as usize,
        kept.relays as usize,
        lows,
        highs,
        states,
    );
    answer
}
