// Link reports, for C: which of two texts stands, and a set of reports into a table.
ghost use Rattle.std.specs.Prelude.{◌≡◌};
ghost use Rattle.definitions.specs.Stands.{stands_answer};
ghost use Rattle.definitions.specs.ReportSets.{reports_answer, reports_lows, reports_highs, reports_states};
ghost use Rattle.nolkisei.specs.Reported.{reported};

use crate::report;
use stands::Which;

// Which of two reports stands: 0 for the first text, 1 for the second, and how long it is.
#[unsafe(no_mangle)]
pub extern "C" fn nolkisei_stands(first: &[u8], second: &[u8], answer: &mut [u64; 2]) -> u32
    ensures { reported (stands_answer first.now second.now) ≡ (result, answer.new) }
{
    match stands::which_stands(first, second) {
        Ok(Which::First) => report::give(0, first.len() as u64, answer),
        Ok(Which::Second) => report::give(1, second.len() as u64, answer),
        Err(refusal) => report::refuse(refusal, answer),
    }
}

// A set of reports into a table and the states of its relays.
#[unsafe(no_mangle)]
pub extern "C" fn nolkisei_reports(
    n: u16,
    text: &[u8],
    lows: &mut [u16],
    highs: &mut [u16],
    states: &mut [u16],
    answer: &mut [u64; 2],
) -> u32
    ensures answer { reported (reports_answer n text.now lows.old highs.old states.old) ≡ (result, answer.new) }
    ensures low_list { lows.new ≡ reports_lows n text.now lows.old highs.old states.old }
    ensures high_list { highs.new ≡ reports_highs n text.now lows.old highs.old states.old }
    ensures state_list { states.new ≡ reports_states n text.now lows.old highs.old states.old }
{
    report::table(reports::reports(n, text, lows, highs, states), answer)
}
