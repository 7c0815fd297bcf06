// A set of standing reports becomes a network's table (document 02, #108).
#![tactic(auto)]

ghost use Rattle.std.specs.Prelude.{false, ◌≡◌, ◌≤◌, length};
ghost use Rattle.definitions.specs.ReportSets.{
  reports_network,
  reports_answer,
  reports_lows,
  reports_highs,
  reports_states,
};
ghost use Rattle.text.specs.Answers.{read_outcome};
ghost use Rattle.text.specs.Tables.{TableRead};
ghost use Rattle.reports.specs.Places.{AllTold};

pub mod line;
mod merge;
mod places;

use merge::merge;
use network::Refusal;
use network::limits::{RELAY_ROOM, RELAYS};
use places::{Places, place_all, put_states};
use text::{TableSize, clear_behind, size_check};

// The table of reports of different relays below n, whose places are kept. Past the room of a list its entries are only counted.
fn join(
    text: &[u8],
    n: u16,
    places: &mut [Places],
    lows: &mut [u16],
    highs: &mut [u16],
    states: &mut [u16],
) -> Result<TableSize, Refusal>
    requires { (1 ≤ n) × (n ≤ 1000) × AllTold text.now n places.old false false }
    ensures { TableRead (reports_network n text.now (length lows.old) (length highs.old)
        (length states.old)) lows.old highs.old states.old lows.new
        highs.new states.new result }
{
    put_states(places, n, states);
    let links = merge(text, n, places, lows, highs)?;
    let size = TableSize { relays: n, links };
    size_check(size, lows.len(), highs.len(), states.len())?;
    Ok(size)
}

// A set into the front of the three lists; what is after the links and states is left as it falls.
fn reports_table(
    n: u16,
    text: &[u8],
    lows: &mut [u16],
    highs: &mut [u16],
    states: &mut [u16],
) -> Result<TableSize, Refusal>
    ensures { TableRead (reports_network n text.now (length lows.old) (length highs.old)
        (length states.old)) lows.old highs.old states.old lows.new
        highs.new states.new result }
{
    if n < 1 || RELAYS < n {
        return Err(Refusal::RelayCount);
    }
    let mut places = [Places { seen: 0, above: 0 }; RELAY_ROOM];
    place_all(text, n, &mut places)?;
    join(text, n, &mut places, lows, highs, states)
}

// Takes a set of reports as a table.
pub fn reports(
    n: u16,
    text: &[u8],
    lows: &mut [u16],
    highs: &mut [u16],
    states: &mut [u16],
) -> Result<TableSize, Refusal>
    ensures answer { read_outcome result ≡ reports_answer n text.now lows.old highs.old
        states.old }
    ensures low_list { lows.new ≡ reports_lows n text.now lows.old highs.old
        states.old }
    ensures high_list { highs.new ≡ reports_highs n text.now lows.old highs.old
        states.old }
    ensures state_list { states.new ≡ reports_states n text.now lows.old highs.old
        states.old }
{
    let answer = reports_table(n, text, lows, highs, states);
    let kept = answer.unwrap_or(TableSize {
        relays: 0,
        links: 0,
    });
    clear_behind(
        kept.links as usize,
        kept.relays as usize,
        lows,
        highs,
        states,
    );
    answer
}
