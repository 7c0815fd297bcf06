// A line with the number of relays and a set of reports come in; the network's own text goes out, or the refused line.
ghost use Rattle.std.specs.Prelude.{◌≡◌, ◌≤◌, length};
ghost use Rattle.definitions.specs.Lists.{overwrite};
ghost use Rattle.definitions.specs.Program.{printed, network_text};
ghost use Rattle.definitions.specs.ReportSets.{reports_network, reports_text};
ghost use Rattle.program.specs.Made.{Printed};
ghost use Rattle.program.specs.ReadStage.{network_outcome};

use network::{Network, Refusal};
use program::line::single_line;
use program::made::{TEXT_ROOM, put_made};
use program::refusal::put_any;
use program::rooms::Rooms;
use reports::reports;

// The set as a table, with room for every network.
fn load_reports<'a>(n: u16, text: &[u8], rooms: &'a mut Rooms) -> Result<Network<'a>, Refusal>
    ensures { network_outcome result ≡ reports_network n text.now 3000 3000 1000 }
{
    let size = reports(
        n,
        text,
        &mut rooms.lows,
        &mut rooms.highs,
        &mut rooms.states,
    )?;
    Ok(rooms.network(size))
}

// The set is taken, and what it is goes out.
fn put_reported(output: &mut [u8], n: u16, text: &[u8]) -> usize
    requires { 54929 ≤ length output.old }
    ensures { Printed output.old (printed network_text (reports_network n text.now 3000 3000 1000))
        output.new result }
{
    let mut rooms = Rooms::new();
    put_made(output, load_reports(n, text, &mut rooms))
}

// Prints the text for an input, from the output's first byte on, and gives its length.
pub fn convert(input: &[u8], output: &mut [u8; TEXT_ROOM]) -> usize
    ensures length { result ≡ length (reports_text input.now) }
    ensures bytes { output.new ≡ overwrite (reports_text input.now) output.old }
{
    match single_line(input, b"(reports ", b")\n", 0) {
        Ok((n, p)) => put_reported(output, n, &input[p..]),
        Err(departure) => put_any(output, Refusal::Wish(departure.0)),
    }
}
