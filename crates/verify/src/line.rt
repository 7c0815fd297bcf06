// A line that tells where the border is, a network's text and a sheet's text come in; the line that says whether the sheet holds goes
// out, or the refused line.
ghost use Rattle.std.specs.Prelude.{[], ◌∷◌, ◌≡◌, ◌≤◌, length};
ghost use Rattle.definitions.specs.Lists.{overwrite};
ghost use Rattle.definitions.specs.Program.{printed};
ghost use Rattle.definitions.specs.SheetTest.{sheet_answer};
ghost use Rattle.definitions.specs.Border.{border_of};
ghost use Rattle.definitions.specs.Verify.{verdict_text, verify_text};
ghost use Rattle.network.specs.Tables.{of_table};
ghost use Rattle.program.specs.RefusedLine.{line_room, LinePut};
ghost use Rattle.verify.specs.Line.{read_back_from, read_back_at};

use crate::read_sheet;
use network::{Network, Refusal};
use program::border::border;
use program::refusal::{LINE_ROOM, put_any};
use program::rooms::Rooms;
use text::scan::Departure;
use text::{put, scan};

// The bytes for every line.
pub const OUTPUT: usize = LINE_ROOM;

// The line for a sheet that is read back with this network.
fn put_line(output: &mut [u8], network: Network, text: &[u8]) -> usize
    requires { line_room ≤ length output.old }
    ensures { LinePut output.old
        (printed verdict_text (of_table sheet_answer network.entry.table text.now))
        output.new result }
{
    match read_sheet(network, text) {
        Ok(true) => put::put_word(output, 0, b"(holds)\n"),
        Ok(false) => put::put_word(output, 0, b"(fails)\n"),
        Err(refusal) => put_any(output, refusal),
    }
}

// The network is read, and then the sheet.
fn put_read_back(output: &mut [u8], network: &[u8], text: &[u8]) -> usize
    requires { line_room ≤ length output.old }
    ensures { LinePut output.old (printed verdict_text (read_back_from network.now text.now))
        output.new result }
{
    let mut rooms = Rooms::new();
    match rooms.load(network) {
        Ok(network) => put_line(output, network, text),
        Err(refusal) => put_any(output, refusal),
    }
}

// Both texts, with the border that the line in front tells.
fn put_both(output: &mut [u8], text: &[u8], a: u16, b: u16) -> usize
    requires { line_room ≤ length output.old }
    ensures { LinePut output.old (printed verdict_text (read_back_at (border_of (a ∷ b ∷ [])) text.now))
        output.new result }
{
    let at = border(text, a, b);
    put_read_back(output, &text[..at], &text[at..])
}

// Prints the line for an input, from the output's first byte on, and gives its length.
pub fn verify(input: &[u8], output: &mut [u8; OUTPUT]) -> usize
    ensures length { result ≡ length (verify_text input.now) }
    ensures bytes { output.new ≡ overwrite (verify_text input.now) output.old }
{
    match scan::pair_line(input, b"(verify ", b" ", b")\n", 0) {
        Ok((a, b, p)) => put_both(output, &input[p..], a, b),
        Err(Departure(p)) => put_any(output, Refusal::Wish(p)),
    }
}
