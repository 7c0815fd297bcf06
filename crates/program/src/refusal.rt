// The line of a refusal: its number and its place.
ghost use Rattle.std.specs.Prelude.{[], ◌∷◌, ◌≤◌, length};
ghost use Rattle.definitions.specs.Form.{write_form};
ghost use Rattle.definitions.specs.Program.{refused_form};
ghost use Rattle.network.specs.Answers.{refusal_number, refusal_place};
ghost use Rattle.text.specs.Put.{Put};
ghost use Rattle.program.specs.RefusedLine.{line_room, LinePut};

use network::Refusal;
use text::put;

// The bytes that every refused line fits: with two numbers of twenty digits it has as many.
pub const LINE_ROOM: usize = 52;

// `(refused NUMBER PLACE)` and its line end, from the output's first byte on.
fn put_refused(output: &mut [u8], number: usize, place: usize) -> usize
    requires { length (write_form refused_form (number ∷ place ∷ [])) ≤ length output.old }
    ensures { Put output.old 0 (write_form refused_form (number ∷ place ∷ [])) output.new result }
{
    put::put_pair(output, 0, b"(refused ", number, b" ", place, b")\n")
}

// The same for a refusal.
pub fn put_refusal(output: &mut [u8], refusal: Refusal) -> usize
    requires { length (write_form refused_form (refusal_number refusal ∷ refusal_place refusal ∷ [])) ≤ length output.old }
    ensures { Put output.old 0 (write_form refused_form (refusal_number refusal ∷ refusal_place refusal ∷ []))
        output.new result }
{
    put_refused(output, refusal.number() as usize, refusal.place())
}

// The same in a room that every number and place fits: its callers know no bound on the line, and it tells them one.
pub fn put_any(output: &mut [u8], refusal: Refusal) -> usize
    requires { line_room ≤ length output.old }
    ensures { LinePut output.old (write_form refused_form (refusal_number refusal ∷ refusal_place refusal ∷ []))
        output.new result }
{
    put_refused(output, refusal.number() as usize, refusal.place())
}
