// What the programs print, for C: a text goes to the output, from its first byte on, and the answer is its length.
ghost use Rattle.std.specs.Prelude.{◌≡◌};
ghost use Rattle.definitions.specs.Program.{print_answer, output_after};
ghost use Rattle.definitions.specs.Plan.{plan_text};
ghost use Rattle.definitions.specs.Keep.{keep_text};
ghost use Rattle.nolkisei.specs.Reported.{reported};

use crate::report;

// The planner: the sheet or the refused line for an input.
#[unsafe(no_mangle)]
pub extern "C" fn nolkisei_plan(input: &[u8], output: &mut [u8], answer: &mut [u64; 2]) -> u32
    ensures answer { reported (print_answer (plan_text input.now) output.old) ≡ (result, answer.new) }
    ensures bytes { output.new ≡ output_after (plan_text input.now) output.old }
{
    match plan::plan_into(input, output) {
        Ok(size) => report::give(size as u64, 0, answer),
        Err(refusal) => report::refuse(refusal, answer),
    }
}

// The list of the links worth keeping, or the refused line, likewise.
#[unsafe(no_mangle)]
pub extern "C" fn nolkisei_keep(input: &[u8], output: &mut [u8], answer: &mut [u64; 2]) -> u32
    ensures answer { reported (print_answer (keep_text input.now) output.old) ≡ (result, answer.new) }
    ensures bytes { output.new ≡ output_after (keep_text input.now) output.old }
{
    match keep::keep_into(input, output) {
        Ok(size) => report::give(size as u64, 0, answer),
        Err(refusal) => report::refuse(refusal, answer),
    }
}
