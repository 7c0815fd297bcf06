// Sheets read back: whether a sheet, whoever made it, holds for a network.
#![tactic(auto)]

ghost use Rattle.std.specs.Prelude.{◌≡◌, eqb};
ghost use Rattle.definitions.specs.Forests.{marks_of};
ghost use Rattle.definitions.specs.Lists.{count};
ghost use Rattle.definitions.specs.SheetTest.{sheet_answer};
ghost use Rattle.network.specs.Tables.{of_table};
ghost use Rattle.verify.specs.Answers.{sheet_outcome, after_check, Judged};

use forests::cut_accepted;
use form::{Form, sheet_form};
use network::limits::{LINK_ROOM, ROUTES};
use network::{Network, Refusal, Table};
use walk::routes_hold;

mod form;
pub mod line;
mod link;
mod walk;

// How many links Cut keeps.
fn kept_count(network: Network, k: u16) -> u16
    ensures { result ≡ count (eqb 1) (of_table marks_of network.entry.table k) }
{
    let mut marks = [0; LINK_ROOM];
    cut_accepted(network, k, &mut marks)
}

// A text of the form, with an accepted network: whether what it says holds.
fn judge(network: Network, text: &[u8], form: Form) -> Result<bool, Refusal>
    ensures { Judged network.entry.table text.now form (sheet_outcome result) }
{
    let k = form.wish.k;
    if k < 1 || ROUTES < k {
        return Err(Refusal::SheetCount);
    }
    Ok(
        form.routes == usize::from(k)
            && routes_hold(network, text, form)
            && kept_count(network, k) == form.kept,
    )
}

// A sheet's text, with an accepted network: whether the sheet holds.
fn read_sheet(network: Network, text: &[u8]) -> Result<bool, Refusal>
    ensures { sheet_outcome result ≡ of_table after_check network.entry.table text.now }
{
    match sheet_form(text) {
        Ok(form) => judge(network, text, form),
        Err(departure) => Err(Refusal::SheetForm(departure.0)),
    }
}

// Reads a sheet back with its network: whether it holds, or a refusal.
pub fn check_sheet(table: Table, text: &[u8]) -> Result<bool, Refusal>
    ensures { sheet_outcome result ≡ of_table sheet_answer table.entry text.now }
{
    let network = table.check()?;
    read_sheet(network, text)
}
