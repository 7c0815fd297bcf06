// How an outcome is reported to C: a code and two entries.
ghost use Rattle.std.specs.Prelude.{◌≡◌, [], ◌∷◌};
ghost use Rattle.definitions.specs.Outcome.{done};
ghost use Rattle.network.specs.Answers.{refusal_of};
ghost use Rattle.text.specs.Answers.{read_outcome};
ghost use Rattle.nolkisei.specs.Reported.{reported};

use network::Refusal;
use text::TableSize;

// Reports success with two values, 0 for none.
pub fn give(first: u64, second: u64, answer: &mut [u64; 2]) -> u32
    ensures { reported (done (first ∷ second ∷ [])) ≡ (result, answer.new) }
{
    *answer = [first, second];
    0
}

// Reports a refusal.
pub fn refuse(refusal: Refusal, answer: &mut [u64; 2]) -> u32
    ensures { reported (refusal_of refusal) ≡ (result, answer.new) }
{
    *answer = [refusal.place() as u64, 0];
    u32::from(refusal.number())
}

// Done with the number of relays and of links of a table that was read, or refused.
pub(crate) fn table(read: Result<TableSize, Refusal>, answer: &mut [u64; 2]) -> u32
    ensures { reported (read_outcome read) ≡ (result, answer.new) }
{
    match read {
        Ok(size) => give(u64::from(size.relays), u64::from(size.links), answer),
        Err(refusal) => refuse(refusal, answer),
    }
}
