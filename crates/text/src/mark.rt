// The mark that stands on a lent text: the reader sets one for each form, where the form is due.
// The form itself is read by a function on slice and offset.
ghost use Rattle.std.specs.Prelude.{◌≡◌};
ghost use Rattle.definitions.specs.Form.{scan_form};
ghost use Rattle.text.specs.DueForms.{form_of, as_pair};
ghost use Rattle.text.specs.Scans.{pair_gives, FormRead};

use crate::scan::{Departure, Due};
use network::Refusal;

#[derive(Clone, Copy)]
struct Mark<'a> {
    text: &'a [u8],
    at: usize,
}

// The form due where the mark stands.
fn form_here<'a>(mark: Mark<'a>, due: Due) -> Result<(u16, u16, usize), Departure>
    ensures { pair_gives result ≡ as_pair due (scan_form mark.entry.text.now (form_of due) mark.entry.at) }
{
    crate::scan::form_line(mark.text, mark.at, due)
}

// A mark is set on a text, and the form due there is read; one that departs is refused there.
pub(crate) fn form_at(text: &[u8], at: usize, due: Due) -> Result<(u16, u16, usize), Refusal>
    ensures { FormRead (as_pair due (scan_form text.now (form_of due) at)) result }
{
    form_here(Mark { text, at }, due).map_err(|departure| Refusal::Form(departure.0))
}
