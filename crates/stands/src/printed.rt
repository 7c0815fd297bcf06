// A line that tells where the border is and two reports come in; the report that stands goes out, or the refused line.
ghost use Rattle.std.specs.Prelude.{◌≡◌, ◌≤◌, [], ◌∷◌, length};
ghost use Rattle.definitions.specs.Border.{border_of};
ghost use Rattle.definitions.specs.Lists.{overwrite};
ghost use Rattle.definitions.specs.Stands.{stands_text, stands_of};
ghost use Rattle.stands.specs.Printed.{report_room, StandsPut, stands_at};

use crate::{Which, which_stands};
use network::Refusal;
use program::border::border;
use program::refusal::put_any;
use text::{put, scan};

// The bytes of the longest report; the refused line has fewer.
pub const OUTPUT: usize = 3917;

// The text for two reports.
fn put_standing(output: &mut [u8], first: &[u8], second: &[u8]) -> usize
    requires { report_room ≤ length output.old }
    ensures { StandsPut output.old (stands_of first.now second.now) output.new result }
{
    match which_stands(first, second) {
        Ok(Which::First) => put::put_word(output, 0, first),
        Ok(Which::Second) => put::put_word(output, 0, second),
        Err(refusal) => put_any(output, refusal),
    }
}

// Both reports, with the border that the line in front tells.
fn put_both(output: &mut [u8], text: &[u8], a: u16, b: u16) -> usize
    requires { report_room ≤ length output.old }
    ensures { StandsPut output.old (stands_at (border_of (a ∷ b ∷ [])) text.now) output.new result }
{
    let at = border(text, a, b);
    put_standing(output, &text[..at], &text[at..])
}

// Prints the text for an input, from the output's first byte on, and gives its length.
pub fn stands(input: &[u8], output: &mut [u8; OUTPUT]) -> usize
    ensures length { result ≡ length (stands_text input.now) }
    ensures bytes { output.new ≡ overwrite (stands_text input.now) output.old }
{
    match scan::pair_line(input, b"(stands ", b" ", b")\n", 0) {
        Err(departure) => put_any(output, Refusal::Wish(departure.0)),
        Ok((a, b, p)) => put_both(output, &input[p..], a, b),
    }
}
