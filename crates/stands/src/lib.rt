// Which of two reports of a relay stands (document 02, #108): as the bytes in its own text, and as a number where none stands.
#![tactic(auto)]

ghost use Rattle.std.specs.Prelude.{◌≡◌};
ghost use Rattle.definitions.specs.Stands.{wrapped, ahead, standing, standing_bytes, standing_check};
ghost use Rattle.network.specs.Answers.{outcome};
ghost use Rattle.stands.specs.Standing.{ReportTold, which_outcome, Own};

pub mod printed;

use network::Refusal;
use reports::line::{Report, report_line};

// Which of two texts stands.
#[derive(Clone, Copy, PartialEq, Eq)]
pub enum Which {
    First,
    Second,
}

// A text that is to be one report line, with nothing after it.
fn read_report(text: &[u8]) -> Result<Report, Refusal>
    ensures { ReportTold text.now result }
{
    let Some(report) = report_line(text, 0) else {
        return Err(Refusal::ReportForm);
    };
    if report.next < text.len() {
        return Err(Refusal::ReportForm);
    }
    Ok(report)
}

// "its serial minus the first's, wrapped at 32 bits"
fn lead(a: u32, b: u32) -> u32
    ensures { result ≡ wrapped a b }
{
    a.wrapping_sub(b)
}

// Whether serial a is ahead of b, by at most 2,147,483,647.
fn is_ahead(a: u32, b: u32) -> bool
    ensures { result ≡ ahead a b }
{
    matches!(lead(a, b), 1..=2147483647)
}

// Which of two texts stands, or the refusal.
pub fn which_stands(first: &[u8], second: &[u8]) -> Result<Which, Refusal>
    ensures { which_outcome result ≡ standing first.now second.now }
{
    let one = read_report(first)?;
    let other = read_report(second)?;
    if one.relay != other.relay {
        return Err(Refusal::ReportRelays);
    }
    if is_ahead(other.serial, one.serial) {
        return Ok(Which::Second);
    }
    if is_ahead(one.serial, other.serial) {
        return Ok(Which::First);
    }
    if one.serial == other.serial && first == second {
        return Ok(Which::First);
    }
    Err(Refusal::ReportSerials)
}

// The report that stands, as the bytes in its own text, line end included; empty where none does.
pub fn standing<'a>(first: &'a [u8], second: &'a [u8]) -> &'a [u8]
    ensures bytes { result.now ≡ standing_bytes first.now second.now }
    ensures own { Own (standing first.now second.now) (result ≡ first.entry) (result ≡ second.entry) }
{
    match which_stands(first, second) {
        Ok(Which::First) => first,
        Ok(Which::Second) => second,
        Err(_) => &first[..0],
    }
}

// The number where none stands.
pub fn standing_check(first: &[u8], second: &[u8]) -> Result<(), Refusal>
    ensures { outcome result ≡ standing_check first.now second.now }
{
    which_stands(first, second)?;
    Ok(())
}
