// The wish line, `(want FROM TO K)` and its line end.
ghost use Rattle.std.specs.Prelude.{◌≡◌};
ghost use Rattle.definitions.specs.Form.{scan_form};
ghost use Rattle.definitions.specs.Plan.{wish_form};
ghost use Rattle.plan.specs.Wish.{wish_gives};

use network::Relay;
use program::line::number_word;
use routes::Wish;
use text::scan;
use text::scan::Departure;

// The wish and the offset after its line.
pub fn wish_line(input: &[u8]) -> Result<(Wish, usize), Departure>
    ensures { wish_gives result ≡ scan_form input.now wish_form 0 }
{
    let (from, to, p) = scan::pair_line(input, b"(want ", b" ", b" ", 0)?;
    let (k, next) = number_word(input, b")\n", p)?;
    let wish = Wish {
        from: Relay(from),
        to: Relay(to),
        k,
    };
    Ok((wish, next))
}
