// Writing from left to right: a word, a number, a line of two numbers, and the forms of a network's text, at an offset of a
// buffer that has the room.
// Each gives the offset behind what it wrote.
ghost use Rattle.std.specs.Prelude.{[], ◌∷◌, ◌≡◌, ◌+◌, ◌≤◌, ◌<◌, length};
ghost use Rattle.definitions.specs.Form.{word, numeral, decimal, write_form};
ghost use Rattle.definitions.specs.Text.{header_form, end_form, out_line, out_lines};
ghost use Rattle.network.specs.Tables.{OfTable};
ghost use Rattle.text.specs.Marks.{FormWritable, Moved};
ghost use Rattle.text.specs.Put.{Put};
ghost use Rattle.text.specs.Scans.{pair_form};
ghost use Rattle.text.specs.WrittenOuts.{AtMostEach};

use crate::scan::Due;
use network::Table;

// Where the writer stands: the next offset, and how many links are written.
#[derive(Clone, Copy)]
pub(crate) struct WriteMark {
    pub next: usize,
    pub links: usize,
}

// How many digits a number has.
fn width(x: usize) -> usize
    ensures { result ≡ length (decimal x) }
{
    let mut count = 1;
    let mut tens = x;
    // As long as there are tens: how often is what is counted, so no range says it.
    while 10 <= tens {
        tens /= 10;
        count += 1;
    }
    count
}

// The same for a number of at most five digits, by comparing alone.
fn short_width(x: usize) -> usize
    requires { x ≤ 65535 }
    ensures { result ≡ length (decimal x) }
{
    match x {
        ..=9 => 1,
        ..=99 => 2,
        ..=999 => 3,
        ..=9999 => 4,
        _ => 5,
    }
}

// A word to the letter. The buffer and the offset are two parameters, here and below: of a struct that holds the buffer by `&mut` a
// contract could name what is left by its position alone. Byte by byte, since `copy_from_slice` calls memmove, and of libc the library
// needs memcpy and memset alone.
pub fn put_word(buffer: &mut [u8], at: usize, letters: &[u8]) -> usize
    requires { at + length letters.now ≤ length buffer.old }
    ensures { Put buffer.old at letters.now buffer.new result }
{
    for i in 0..letters.len() {
        buffer[at + i] = letters[i];
    }
    at + letters.len()
}

// A number in base ten, with as many digits as it takes.
pub fn put_number(buffer: &mut [u8], at: usize, x: usize) -> usize
    requires { at + length (decimal x) ≤ length buffer.old }
    ensures { Put buffer.old at (decimal x) buffer.new result }
{
    let next = at + width(x);
    let mut tens = x;
    for p in (at + 1..next).rev() {
        buffer[p] = b'0' + (tens % 10) as u8;
        tens /= 10;
    }
    // The first digit is left, and needs no division.
    buffer[at] = b'0' + tens as u8;
    next
}

// A word and the number behind it.
pub fn put_word_number(buffer: &mut [u8], at: usize, letters: &[u8], x: usize) -> usize
    requires { at + length (write_form (word letters.now ∷ numeral ∷ []) (x ∷ [])) ≤ length buffer.old }
    ensures { Put buffer.old at (write_form (word letters.now ∷ numeral ∷ []) (x ∷ []))
        buffer.new result }
{
    let p = put_word(buffer, at, letters);
    put_number(buffer, p, x)
}

// A line of two numbers: three words with the numbers between them.
pub fn put_pair(
    buffer: &mut [u8],
    at: usize,
    front: &[u8],
    a: usize,
    middle: &[u8],
    b: usize,
    back: &[u8],
) -> usize
    requires { at + length (write_form (pair_form front.now middle.now back.now) (a ∷ b ∷ [])) ≤ length buffer.old }
    ensures { Put buffer.old at
        (write_form (pair_form front.now middle.now back.now) (a ∷ b ∷ [])) buffer.new result }
{
    let p = put_word_number(buffer, at, front, a);
    let q = put_word_number(buffer, p, middle, b);
    put_word(buffer, q, back)
}

// The header line, with the number of relays and of links.
fn put_header(buffer: &mut [u8], at: usize, n: usize, m: usize) -> usize
    requires { at + length (write_form header_form (n ∷ m ∷ [])) ≤ length buffer.old }
    ensures { Put buffer.old at (write_form header_form (n ∷ m ∷ [])) buffer.new result }
{
    put_pair(buffer, at, b"(net (relays ", n, b") (links ", m, b"))\n")
}

// The `out` line of a relay by its state: none where it is in service.
fn put_out(buffer: &mut [u8], at: usize, state: u16, relay: usize) -> usize
    requires { at + length (out_line state relay) ≤ length buffer.old }
    ensures { Put buffer.old at (out_line state relay) buffer.new result }
{
    if state != 0 {
        return at;
    }
    let p = put_word_number(buffer, at, b"(out ", relay);
    put_word(buffer, p, b")\n")
}

// A state that none is below: 0 where a relay is withdrawn. It looks at all entries alike, without an early exit.
fn least_state(states: &[u16]) -> u16
    ensures { AtMostEach result states.now (length states.now) }
{
    let mut least = 1;
    for state in states {
        least = least.min(*state);
    }
    least
}

// The `out` lines of all relays that are withdrawn.
fn put_outs(buffer: &mut [u8], at: usize, states: &[u16]) -> usize
    requires { at + length (out_lines states.now 0 (length states.now)) ≤ length buffer.old }
    ensures { Put buffer.old at (out_lines states.now 0 (length states.now))
        buffer.new result }
{
    if least_state(states) != 0 {
        return at;
    }
    let mut p = at;
    for (relay, state) in states.iter().enumerate() {
        p = put_out(buffer, p, *state, relay);
    }
    p
}

// `(end)` and its line end.
pub fn put_end(buffer: &mut [u8], at: usize) -> usize
    requires { at + length (write_form end_form []) ≤ length buffer.old }
    ensures { Put buffer.old at (write_form end_form []) buffer.new result }
{
    put_word(buffer, at, b"(end)\n")
}

// The length of a line of two numbers, whose words have this many bytes together.
pub(crate) fn pair_length(words: usize, a: usize, b: usize) -> usize
    requires { (words ≤ 25) × (a ≤ 65535) × (b ≤ 65535) }
    ensures { (result ≡ words + length (decimal a) + length (decimal b)) × (result ≤ words + 10) }
{
    words + short_width(a) + short_width(b)
}

// The length of a relay's `out` line by its state: its words have 7 bytes.
fn out_length(state: u16, relay: usize) -> usize
    requires { relay < 1000 }
    ensures { (result ≡ length (out_line state relay)) × (result ≤ 10) }
{
    if state != 0 {
        return 0;
    }
    7 + short_width(relay)
}

// The length of all `out` lines.
pub(crate) fn outs_length(states: &[u16]) -> usize
    requires { length states.now ≤ 1000 }
    ensures { (result ≡ length (out_lines states.now 0 (length states.now))) × (result ≤ 10000) }
{
    if least_state(states) != 0 {
        return 0;
    }
    let mut total = 0;
    for (relay, state) in states.iter().enumerate() {
        total += out_length(*state, relay);
    }
    total
}

// Writes the form that is due at the mark, and moves the mark behind it.
pub(crate) fn move_mark(buffer: &mut [u8], mark: &mut WriteMark, due: Due, table: Table)
    requires { OfTable (FormWritable buffer.old mark.old due) table }
    ensures { OfTable (Moved buffer.old mark.old due buffer.new mark.new) table.entry }
{
    match due {
        Due::Header => {
            mark.next = put_header(buffer, mark.next, table.n as usize, table.lows.len());
        }
        Due::Link => {
            let low = table.lows[mark.links] as usize;
            let high = table.highs[mark.links] as usize;
            mark.next = put_pair(buffer, mark.next, b"(link ", low, b" ", high, b")\n");
            mark.links += 1;
        }
        Due::Out => {
            mark.next = put_outs(buffer, mark.next, table.states);
        }
        Due::End => {
            mark.next = put_end(buffer, mark.next);
        }
    }
}
