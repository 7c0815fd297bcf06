// A drawing in the DIMACS edge format comes in; the network's own text goes out, or the refused line.
ghost use Rattle.std.specs.Prelude.{◌≡◌, ◌≤◌, length};
ghost use Rattle.definitions.specs.Lists.{overwrite};
ghost use Rattle.definitions.specs.Dimacs.{import_network};
ghost use Rattle.definitions.specs.Import.{import_text};
ghost use Rattle.program.specs.ReadStage.{network_outcome};
ghost use Rattle.program.specs.Made.{Printed};

use import::import;
use network::{Network, Refusal};
use program::made::{TEXT_ROOM, put_made};
use program::rooms::Rooms;

// Import, with room for every network.
fn load_drawing<'a>(input: &[u8], rooms: &'a mut Rooms) -> Result<Network<'a>, Refusal>
    ensures { network_outcome result ≡ import_network input.now 3000 3000 1000 }
{
    let size = import(input, &mut rooms.lows, &mut rooms.highs, &mut rooms.states)?;
    Ok(rooms.network(size))
}

// The drawing is imported, and what it is goes out.
fn put_imported(output: &mut [u8], input: &[u8]) -> usize
    requires { 54929 ≤ length output.old }
    ensures { Printed output.old (import_text input.now) output.new result }
{
    let mut rooms = Rooms::new();
    put_made(output, load_drawing(input, &mut rooms))
}

// Prints the text for an input, from the output's first byte on, and gives its length.
pub fn convert(input: &[u8], output: &mut [u8; TEXT_ROOM]) -> usize
    ensures length { result ≡ length (import_text input.now) }
    ensures bytes { output.new ≡ overwrite (import_text input.now) output.old }
{
    put_imported(output, input)
}
