// Parts of lines: a number and the word behind it and a line of one number are read, a line of one number or of three is printed.
ghost use Rattle.std.specs.Prelude.{true, [], ◌∷◌, ◌≡◌, ◌+◌, ◌≤◌, length};
ghost use Rattle.definitions.specs.Form.{word, numeral, scan_form, write_form};
ghost use Rattle.definitions.specs.Plan.{kept_form};
ghost use Rattle.text_theory.specs.Forms.{no_zero};
ghost use Rattle.text.specs.Put.{Put};
ghost use Rattle.text.specs.Scans.{number_gives};
ghost use Rattle.program.specs.Single.{single_form, triple_form};

use text::scan::Departure;
use text::{put, scan};

// A number and the word behind it.
pub fn number_word(text: &[u8], letters: &[u8], at: usize) -> Result<(u16, usize), Departure>
    requires { no_zero letters.now ≡ true }
    ensures { number_gives result ≡ scan_form text.now (numeral ∷ word letters.now ∷ []) at }
{
    let (x, p) = scan::number(text, at)?;
    let q = scan::word(text, letters, p)?;
    Ok((x, q))
}

// A line of one number: two words with the number between them.
pub fn single_line(
    text: &[u8],
    front: &[u8],
    back: &[u8],
    at: usize,
) -> Result<(u16, usize), Departure>
    requires { (no_zero front.now ≡ true) × (no_zero back.now ≡ true) }
    ensures { number_gives result ≡ scan_form text.now (single_form front.now back.now) at }
{
    let (x, p) = scan::word_number(text, front, at)?;
    let q = scan::word(text, back, p)?;
    Ok((x, q))
}

// The same, printed.
pub fn put_single(output: &mut [u8], at: usize, front: &[u8], x: usize, back: &[u8]) -> usize
    requires { at + length (write_form (single_form front.now back.now) (x ∷ [])) ≤ length output.old }
    ensures { Put output.old at
        (write_form (single_form front.now back.now) (x ∷ [])) output.new result }
{
    let p = put::put_word_number(output, at, front, x);
    put::put_word(output, p, back)
}

// A line of three numbers: four words with the numbers between them.
pub fn put_triple(
    output: &mut [u8],
    at: usize,
    front: &[u8],
    x: usize,
    second: &[u8],
    y: usize,
    third: &[u8],
    z: usize,
    back: &[u8],
) -> usize
    requires { at + length (write_form (triple_form front.now second.now third.now back.now) (x ∷ y ∷ z ∷ [])) ≤ length output.old }
    ensures { Put output.old at
        (write_form (triple_form front.now second.now third.now back.now) (x ∷ y ∷ z ∷ []))
        output.new result }
{
    let p = put::put_word_number(output, at, front, x);
    put::put_pair(output, p, second, y, third, z, back)
}

// `(kept COUNT)` and its line end.
pub fn put_kept(output: &mut [u8], at: usize, kept: usize) -> usize
    requires { at + length (write_form kept_form (kept ∷ [])) ≤ length output.old }
    ensures { Put output.old at (write_form kept_form (kept ∷ [])) output.new result }
{
    put_single(output, at, b"(kept ", kept, b")\n")
}
