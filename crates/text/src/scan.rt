// Reading from left to right: a word, a number, and lines of one and of two numbers, from an offset on.
// Each tells the first byte that departs, or what was read and the offset behind it.
ghost use Rattle.std.specs.Prelude.{true, [], ◌∷◌, ◌≡◌, ◌+◌, ◌^◌, ◌≤◌, ◌<◌, length, IfOk};
ghost use Rattle.definitions.specs.Form.{byte_at, word, numeral, reads, scan_word, scan_digits, scan_decimal, scan_number, following, scan_form};
ghost use Rattle.text_theory.specs.Forms.{no_zero};
ghost use Rattle.text.specs.DueForms.{form_of, as_pair};
ghost use Rattle.text.specs.Scans.{pair_form, number_form, word_gives, digits_give, number_gives, pair_gives};

// The offset of the first byte that departs from the form that is due.
#[derive(Clone, Copy, PartialEq, Eq)]
pub struct Departure(pub usize);

// Which form of a network's text is due. `out` lines are due one by one in the reader, all at once in the writer.
#[derive(Clone, Copy, PartialEq, Eq)]
pub(crate) enum Due {
    Header,
    Link,
    Out,
    End,
}

// The byte at an offset; past the end 0, which departs from every form.
pub fn byte(text: &[u8], at: usize) -> u8
    ensures { result ≡ byte_at text.now at }
{
    if at < text.len() { text[at] } else { 0 }
}

// A word to the letter.
pub fn word(text: &[u8], letters: &[u8], at: usize) -> Result<usize, Departure>
    requires { no_zero letters.now ≡ true }
    ensures { word_gives result ≡ scan_word text.now letters.now at }
{
    let mut p = at;
    for letter in letters {
        if byte(text, p) != *letter {
            return Err(Departure(p));
        }
        p += 1;
    }
    Ok(p)
}

// At most so many later digits behind a first one. "the reader decides on each byte by ranges: first digit 1 to 9, zero alone,
// later digits, space, bracket, line end": the first two in `decimal`, the others here. Each byte but a digit ends the number;
// the word due behind it tells whether the byte departs. A `match` of its own for the three: in one with the digits they are
// tested before them, which costs instructions for each digit.
fn digits<const MORE: usize>(text: &[u8], first: u64, at: usize) -> (u64, usize)
    requires { (MORE ≤ 18) × (first ≤ 9) × (at ≤ length text.now) }
    ensures scanned { digits_give result ≡ scan_digits text.now first at MORE }
    ensures below { result.0 < 10 ^ (MORE + 1) }
{
    let mut x = first;
    let mut p = at;
    for _later in 0..MORE {
        let b = byte(text, p);
        match b {
            b'0'..=b'9' => {
                x = x * 10 + (b - b'0') as u64;
                p += 1;
            }
            _ => match b {
                b' ' | b')' | b'\n' => return (x, p),
                _ => return (x, p),
            },
        }
    }
    (x, p)
}

// One digit and at most so many more, with no zero in front except in 0 itself.
pub fn decimal<const MORE: usize>(text: &[u8], at: usize) -> Result<(u64, usize), Departure>
    requires { MORE ≤ 18 }
    ensures scanned { number_gives result ≡ scan_decimal text.now MORE at }
    ensures below { IfOk result (λ read. read.0 < 10 ^ (MORE + 1)) }
{
    let b = byte(text, at);
    match b {
        b'1'..=b'9' => Ok(digits::<MORE>(text, (b - b'0') as u64, at + 1)),
        b'0' => Ok((0, at + 1)),
        _ => Err(Departure(at)),
    }
}

// One to four digits.
pub fn number(text: &[u8], at: usize) -> Result<(u16, usize), Departure>
    ensures { number_gives result ≡ scan_number text.now at }
{
    let (x, p) = decimal::<3>(text, at)?;
    Ok((x as u16, p))
}

// A word and the number behind it.
pub fn word_number(text: &[u8], letters: &[u8], at: usize) -> Result<(u16, usize), Departure>
    requires { no_zero letters.now ≡ true }
    ensures { number_gives result ≡ scan_form text.now (word letters.now ∷ numeral ∷ []) at }
{
    let p = word(text, letters, at)?;
    number(text, p)
}

// A line of two numbers: three words with the numbers between them.
pub fn pair_line(
    text: &[u8],
    front: &[u8],
    middle: &[u8],
    back: &[u8],
    at: usize,
) -> Result<(u16, u16, usize), Departure>
    requires front_value { no_zero front.now ≡ true }
    requires middle_value { no_zero middle.now ≡ true }
    requires back_value { no_zero back.now ≡ true }
    ensures { pair_gives result ≡ scan_form text.now
        (pair_form front.now middle.now back.now) at }
{
    let (a, p) = word_number(text, front, at)?;
    let (b, q) = word_number(text, middle, p)?;
    let end = word(text, back, q)?;
    Ok((a, b, end))
}

// A line of one number, which gives 0 for a second.
fn number_line(
    text: &[u8],
    front: &[u8],
    back: &[u8],
    at: usize,
) -> Result<(u16, u16, usize), Departure>
    requires front_value { no_zero front.now ≡ true }
    requires back_value { no_zero back.now ≡ true }
    ensures { pair_gives result ≡ following (scan_form text.now
        (number_form front.now back.now) at) (reads (0 ∷ [])) }
{
    let (x, p) = word_number(text, front, at)?;
    let end = word(text, back, p)?;
    Ok((x, 0, end))
}

// The form that is due; an `out` line has one number, and the end none: 0 stands for each that is not there.
pub(crate) fn form_line(text: &[u8], at: usize, due: Due) -> Result<(u16, u16, usize), Departure>
    ensures { pair_gives result ≡ as_pair due (scan_form text.now (form_of due) at) }
{
    match due {
        Due::Header => pair_line(text, b"(net (relays ", b") (links ", b"))\n", at),
        Due::Link => pair_line(text, b"(link ", b" ", b")\n", at),
        Due::Out => number_line(text, b"(out ", b")\n", at),
        Due::End => {
            let end = word(text, b"(end)\n", at)?;
            Ok((0, 0, end))
        }
    }
}
