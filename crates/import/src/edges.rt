// The `e` lines of a drawing into the two lists of a table, numbers one lower and ends in order, and what is behind them.
ghost use Rattle.std.specs.Prelude.{◌≡◌, ◌-◌, ◌≤◌};
ghost use Rattle.definitions.specs.Dimacs.{low_end, high_end, read_edges};
ghost use Rattle.import.specs.Edges.{LastRead};

use crate::comments;
use network::{Refusal, Relay};
use text::rows::LinkLines;

// A vertex of a drawing, from 1 on: its relay is one lower.
#[derive(Clone, Copy)]
struct Vertex(u16);

// The relay of the lower of the two ends (the definition's word).
fn low_end(u: Vertex, v: Vertex) -> Relay
    requires { (1 ≤ u.0) × (1 ≤ v.0) }
    ensures { result.0 ≡ low_end u.0 v.0 }
{
    Relay(u.0.min(v.0) - 1)
}

// The relay of the higher of the two ends (likewise).
fn high_end(u: Vertex, v: Vertex) -> Relay
    requires { (1 ≤ u.0) × (1 ≤ v.0) }
    ensures { result.0 ≡ high_end u.0 v.0 }
{
    Relay(u.0.max(v.0) - 1)
}

// The lines of a drawing, an edge each.
pub(crate) struct EdgeLines;

impl LinkLines for EdgeLines {
    ghost reading = { read_edges };

    fn scan_link(
        text: &[u8],
        n: u16,
        i: usize,
        at: usize,
    ) -> Result<(Relay, Relay, usize), Refusal> {
        // A `match` and no `map_err(..)?`: that is shorter, but its proof goes through the closure's clauses.
        let (u, v, next) = match comments::edge_line(text, at) {
            Ok(line) => line,
            Err(departure) => {
                return Err(Refusal::DrawingForm(departure.0));
            }
        };
        if u < 1 || n < u || v < 1 || n < v {
            return Err(Refusal::RelayRange(i));
        }
        let u = Vertex(u);
        let v = Vertex(v);
        Ok((low_end(u, v), high_end(u, v), next))
    }
}

// The comments behind the last `e` line, and nothing after them.
pub(crate) fn read_last(text: &[u8], at: usize) -> Result<usize, Refusal>
    ensures { LastRead text.now at result }
{
    // A `match` and no `map_err(..)?`, as above.
    match comments::comments(text, at) {
        Err(departure) => Err(Refusal::DrawingForm(departure.0)),
        Ok(p) => {
            if p < text.len() {
                return Err(Refusal::DrawingForm(p));
            }
            Ok(p)
        }
    }
}
