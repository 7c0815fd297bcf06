// The waiting relays by their count, as bits: relays have columns of words, one word for each count, and a relay's bit is set in
// the word of its count alone. So the next relay is the lowest bit of the highest word that is not 0. No relay waits with more
// than 76 links to placed ones, since there are at most 3,000 links.
ghost use Rattle.std.specs.Prelude.{◌*◌, ◌<◌, ◌≤◌, ◌≡◌, length, get_or, set, replicate};
ghost use Rattle.std.specs.Int.Bits.{bit_or, bit_xor};
ghost use Rattle.theory.specs.Accepted.{ProperStates};
ghost use Rattle.forests.specs.Counts.{raised_count, withdrawn_count, NoneBeyond, AllWait, StartCounts, turns_of};
ghost use Rattle.forests.specs.Buckets.{
  column_words,
  most_columns,
  few_columns,
  most_count,
  columns_for,
  waits_for,
  bit_for,
  full_word,
  word_of,
  Buckets,
  NoBits,
  Filled,
  Moved,
  FirstColumn,
  LowestBit,
  Leads,
};

use crate::counts::raised;
use network::Relay;

// A word has a bit for each relay of its column.
const WORD_BITS: usize = 64;

// A column has a word for each count.
pub(crate) const COLUMN_WORDS: usize = 80;

// Columns for 1,000 relays, and for 128; 32 are in one column.
const MOST_COLUMNS: usize = 16;

const FEW_COLUMNS: usize = 2;

// Their words.
pub(crate) const MOST_WORDS: usize = MOST_COLUMNS * COLUMN_WORDS;

pub(crate) const FEW_WORDS: usize = FEW_COLUMNS * COLUMN_WORDS;

// The word of a count in the column of a relay.
fn word_of(count: u16, r: Relay) -> usize
    ensures { result ≡ word_of count r.0 }
{
    let column = r.0 as usize / WORD_BITS;
    column * COLUMN_WORDS + count as usize
}

// One for a relay that waits; none for one whose count is 0.
fn waits(count: u16) -> u64
    ensures { result ≡ waits_for count }
{
    if count == 0 { 0 } else { 1 }
}

// The bit of a relay in its words; none of a placed relay, whose count is 0. What is shifted is chosen, and not what comes of it:
// that takes one register less, and then the walk keeps all that it needs in registers (docs/DECISIONS.md).
fn bit_of(count: u16, r: Relay) -> u64
    ensures { result ≡ bit_for count r.0 }
{
    let shift = r.0 as usize % WORD_BITS;
    waits(count) << shift
}

// A bit is flipped in the word at `at`; none if `bit` is 0.
fn flip(at: usize, bit: u64, bits: &mut [u64])
    requires { at < length bits.old }
    ensures { bits.new ≡ set bits.old at (bit_xor (get_or bits.old at 0) bit) }
{
    let word = bits[at];
    bits[at] = word ^ bit;
}

// A bit is set in the word at `at`; none if `bit` is 0.
fn set_bit(at: usize, bit: u64, bits: &mut [u64])
    requires { at < length bits.old }
    ensures { bits.new ≡ set bits.old at (bit_or (get_or bits.old at 0) bit) }
{
    let word = bits[at];
    bits[at] = word | bit;
}

// Each of the first n relays has count 1.
fn wait_all(n: u16, counts: &mut [u16])
    requires { (n ≤ length counts.old) × NoneBeyond n counts.old }
    ensures { AllWait n counts.new }
{
    counts[..n as usize].fill(1);
}

// The word of count 1 in a column, by how many relays there are from its first on: a bit for each of its relays.
fn full_word(left: usize) -> u64
    ensures { result ≡ full_word left }
{
    if left < WORD_BITS {
        (1u64 << left) - 1
    } else {
        u64::MAX
    }
}

// The first n relays have their bits in the words of count 1.
fn fill_words(n: u16, bits: &mut [u64])
    requires { NoBits n bits.old }
    ensures { Filled n bits.new }
{
    let size = n as usize;
    for column in 0..columns_of(n) {
        bits[column * COLUMN_WORDS + 1] = full_word(size - column * WORD_BITS);
    }
}

// Relay r waits no more: it is placed or withdrawn. Gives its count before.
pub(crate) fn leave(r: Relay, counts: &mut [u16], bits: &mut [u64]) -> u16
    requires { (r.0 < length counts.old) × Buckets counts.old bits.old }
    ensures value { result ≡ get_or counts.old r.0 0 }
    ensures moved { Moved r.0 0 counts.old counts.new bits.new }
{
    let at = r.0 as usize;
    let count = counts[at];
    counts[at] = 0;
    flip(word_of(count, r), bit_of(count, r), bits);
    count
}

// Relay r waits no more if its state is 0, withdrawn.
fn withdraw_one(r: Relay, state: u16, counts: &mut [u16], bits: &mut [u64])
    requires { (r.0 < length counts.old) × Buckets counts.old bits.old }
    ensures counts_left { counts.new ≡ withdrawn_count r.0 state counts.old }
    ensures buckets { Buckets counts.new bits.new }
{
    if state == 0 {
        leave(r, counts, bits);
    }
}

// Withdrawn relays wait for no place.
fn withdraw_each(n: u16, states: &[u16], counts: &mut [u16], bits: &mut [u64])
    requires { ProperStates n states.now × AllWait n counts.old × Buckets counts.old bits.old }
    ensures { StartCounts n states.now counts.new × Buckets counts.new bits.new }
{
    for r in 0..n {
        withdraw_one(Relay(r), states[r as usize], counts, bits);
    }
}

// The same, where any relay is withdrawn.
fn withdraw(n: u16, turns: u16, states: &[u16], counts: &mut [u16], bits: &mut [u64])
    requires { (turns ≡ turns_of n states.now) × ProperStates n states.now × AllWait n counts.old
        × Buckets counts.old bits.old }
    ensures { StartCounts n states.now counts.new × Buckets counts.new bits.new }
{
    if turns < n {
        withdraw_each(n, states, counts, bits);
    }
}

// Those of relays 0 to n − 1 that are in service, so many as `turns`, wait for their places.
pub(crate) fn start_counts(n: u16, turns: u16, states: &[u16], counts: &mut [u16], bits: &mut [u64])
    requires { (n ≤ length counts.old) × (turns ≡ turns_of n states.now) × ProperStates n states.now
        × NoneBeyond n counts.old × NoBits (length counts.old) bits.old }
    ensures { StartCounts n states.now counts.new × Buckets counts.new bits.new }
{
    wait_all(n, counts);
    fill_words(n, bits);
    withdraw(n, turns, states, counts, bits);
}

// Relay r has one more link to a placed relay, if it waits. Gives its count before. The bit leaves a word by `^` and enters the next
// by `|`: of two flips the compiler makes one load and one store of both words, and that was slower (docs/DECISIONS.md).
pub(crate) fn raise(r: Relay, counts: &mut [u16], bits: &mut [u64]) -> u16
    requires { (r.0 < length counts.old) × (get_or counts.old r.0 0 < most_count) × Buckets counts.old bits.old }
    ensures value { result ≡ get_or counts.old r.0 0 }
    ensures moved { Moved r.0 (raised_count result) counts.old counts.new bits.new }
{
    let at = r.0 as usize;
    let count = counts[at];
    let bit = bit_of(count, r);
    let word = word_of(count, r);
    counts[at] = raised(count);
    flip(word, bit, bits);
    set_bit(word + 1, bit, bits);
    count
}

// Of so many columns the first with a bit in the word of this count.
fn first_column(columns: usize, count: usize, bits: &[u64]) -> Option<usize>
    requires { (count < column_words) × (columns ≤ most_columns) × (columns * column_words ≤ length bits.now) }
    ensures { FirstColumn columns count bits.now result }
{
    for g in 0..columns {
        if bits[g * COLUMN_WORDS + count] != 0 {
            return Some(g);
        }
    }
    None
}

// The relay of the lowest bit of a word in column g.
fn lowest_of(g: usize, word: u64) -> Relay
    requires { (g < most_columns) × (0 < word) }
    ensures { LowestBit g word result.0 }
{
    let low = word.trailing_zeros() as usize;
    Relay((g * WORD_BITS + low) as u16)
}

// How many columns n relays have.
pub(crate) fn columns_of(n: u16) -> usize
    ensures { result ≡ columns_for n }
{
    (n as usize).div_ceil(WORD_BITS)
}

// The lowest of the waiting relays with the greatest count, where all counts are at most `most`; relay 0, which means nothing, where
// none waits: the scan asks only while one does.
pub(crate) fn leading(columns: usize, most: u16, bits: &[u64]) -> Relay
    requires { (most < column_words) × (columns ≤ most_columns) × (columns * column_words ≤ length bits.now) }
    ensures { Leads columns most bits.now result.0 }
{
    for count in (1..=most as usize).rev() {
        if let Some(g) = first_column(columns, count, bits) {
            return lowest_of(g, bits[g * COLUMN_WORDS + count]);
        }
    }
    Relay(0)
}
