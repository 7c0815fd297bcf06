// Import of document 02, #106: a text in the public DIMACS edge format to a network's table.
#![tactic(auto)]

ghost use Rattle.std.specs.Prelude.{[], ◌≡◌, length};
ghost use Rattle.definitions.specs.Dimacs.{
  read_edges,
  import_network,
  import_answer,
  import_lows,
  import_highs,
  import_states,
};
ghost use Rattle.definitions.specs.Text.{sized};
ghost use Rattle.text.specs.Answers.{read_outcome};
ghost use Rattle.text.specs.Sizes.{HasRoom};
ghost use Rattle.text.specs.Tables.{TableRead};

mod comments;
mod edges;

use edges::EdgeLines;
use network::Refusal;
use text::outs::serve;
use text::rows::read_all_links;
use text::{TableSize, clear_behind, size_check};

// The `e` lines and the comments behind them, for a `p` line within the limits. All relays are in service.
fn import_lines(
    text: &[u8],
    size: TableSize,
    at: usize,
    lows: &mut [u16],
    highs: &mut [u16],
    states: &mut [u16],
) -> Result<TableSize, Refusal>
    requires { HasRoom size.relays size.links (length lows.old) (length highs.old) (length states.old) }
    ensures { TableRead (read_edges text.now size.relays [] [] at size.links) lows.old highs.old
        states.old lows.new highs.new states.new result }
{
    let relays = size.relays;
    let p = read_all_links::<EdgeLines>(text, relays, size.links as usize, at, lows, highs)?;
    edges::read_last(text, p)?;
    serve(states, 0, relays as usize);
    Ok(size)
}

// All that comes after a `p` line with these two numbers.
fn import_rows(
    text: &[u8],
    size: TableSize,
    at: usize,
    lows: &mut [u16],
    highs: &mut [u16],
    states: &mut [u16],
) -> Result<TableSize, Refusal>
    ensures { TableRead (sized size.relays size.links (length lows.old) (length highs.old) (length states.old)
        (read_edges text.now size.relays [] [] at size.links)) lows.old highs.old states.old
        lows.new highs.new states.new result }
{
    size_check(size, lows.len(), highs.len(), states.len())?;
    import_lines(text, size, at, lows, highs, states)
}

// A text into the front of the three lists; what is behind the links and states is left as it falls.
fn import_table(
    text: &[u8],
    lows: &mut [u16],
    highs: &mut [u16],
    states: &mut [u16],
) -> Result<TableSize, Refusal>
    ensures { TableRead (import_network text.now (length lows.old) (length highs.old)
        (length states.old)) lows.old highs.old states.old lows.new
        highs.new states.new result }
{
    // A `match` and no `map_err(..)?`, as in `scan_link`.
    match comments::problem_line(text) {
        Err(departure) => Err(Refusal::DrawingForm(departure.0)),
        Ok((relays, links, p)) => {
            import_rows(text, TableSize { relays, links }, p, lows, highs, states)
        }
    }
}

// Imports a text into a table.
pub fn import(
    text: &[u8],
    lows: &mut [u16],
    highs: &mut [u16],
    states: &mut [u16],
) -> Result<TableSize, Refusal>
    ensures answer { read_outcome result ≡ import_answer text.now lows.old highs.old
        states.old }
    ensures low_list { lows.new ≡ import_lows text.now lows.old highs.old
        states.old }
    ensures high_list { highs.new ≡ import_highs text.now lows.old highs.old
        states.old }
    ensures state_list { states.new ≡ import_states text.now lows.old highs.old
        states.old }
{
    let answer = import_table(text, lows, highs, states);
    let kept = answer.unwrap_or(TableSize {
        relays: 0,
        links: 0,
    });
    clear_behind(
        kept.links as usize,
        kept.relays as usize,
        lows,
        highs,
        states,
    );
    answer
}
