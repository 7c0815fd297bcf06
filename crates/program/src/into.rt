// Printing into a list of any length.
ghost use Rattle.std.specs.Prelude.{◌≡◌};
ghost use Rattle.definitions.specs.Program.{print_answer, output_after};
ghost use Rattle.program.specs.Into.{print_outcome};

use network::Refusal;
use text::put;

// Prints a text from the output's first byte on: refused where the output is shorter, which is then left as it was.
pub fn print_into(text: &[u8], output: &mut [u8]) -> Result<usize, Refusal>
    ensures answer { print_outcome result ≡ print_answer text.now output.old }
    ensures bytes { output.new ≡ output_after text.now output.old }
{
    if output.len() < text.len() {
        return Err(Refusal::Room);
    }
    Ok(put::put_word(output, 0, text))
}
