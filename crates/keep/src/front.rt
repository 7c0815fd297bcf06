// The line in front of the network text, `(keep K)` and its line end.
ghost use Rattle.std.specs.Prelude.{◌≡◌};
ghost use Rattle.definitions.specs.Form.{scan_form};
ghost use Rattle.definitions.specs.Keep.{keep_form};
ghost use Rattle.text.specs.Scans.{number_gives};

use program::line::single_line;
use text::scan::Departure;

// The offset of the first byte that departs, or k and the offset behind the line.
pub(crate) fn keep_line(input: &[u8]) -> Result<(u16, usize), Departure>
    ensures { number_gives result ≡ scan_form input.now keep_form 0 }
{
    single_line(input, b"(keep ", b")\n", 0)
}
