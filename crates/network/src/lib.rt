// The table of a network: relay numbers and places, and the table check. What its answers stand for is said in
// specs/Answers.antt.
#![tactic(auto)]

ghost use Rattle.std.specs.Prelude.{◌||◌, ◌*◌, ◌≡◌, ◌≤◌, leb, length, IfOk};
ghost use Rattle.definitions.specs.Outcome.{pick};
ghost use Rattle.definitions.specs.Network.{Accepted, row_start, links_check, table_check};
ghost use Rattle.network.specs.Answers.{outcome};
ghost use Rattle.network.specs.Tables.{of_table, OfTable};
ghost use Rattle.network.specs.Seen.{fault_of, fault_refusal, Seen};

use limits::{
    FEW_RELAY_ROOM, FEW_RELAYS, FEWEST_RELAY_ROOM, FEWEST_RELAYS, LINK_ROOM, RELAY_ROOM, RELAYS,
};
pub use pairs::{PairMarks, pair_number};
pub use refusal::Refusal;
pub use states::in_service;

pub mod limits;
pub mod pairs;
pub mod refusal;
pub mod row_starts;
mod states;

// A relay number, never a place in the order.
#[derive(Clone, Copy, PartialEq, Eq)]
pub struct Relay(pub u16);

// A place in the order, 1 to n; 0 for none. Never a relay number.
#[derive(Clone, Copy, PartialEq, Eq)]
pub struct Place(pub u16);

// The table of a network: the number of relays, the two ends of each link, and the state of each relay, 1 in service or 0
// withdrawn.
#[derive(Clone, Copy)]
pub struct Table<'a> {
    pub n: u16,
    pub lows: &'a [u16],
    pub highs: &'a [u16],
    pub states: &'a [u16],
}

// An accepted network: a table that passes the table check.
#[derive(Clone, Copy)]
pub struct Network<'a> {
    pub table: Table<'a>,
    ghost accepted: { OfTable Accepted table },
}

// What is wrong with one link after those before it.
#[derive(Clone, Copy, PartialEq, Eq)]
pub enum LinkFault {
    RelayRange,
    NotBelow,
    Repeated,
}

impl LinkFault {
    // The refusal for this fault of a link.
    pub fn of_link(self, link: usize) -> Refusal
        ensures { fault_refusal self link result }
    {
        match self {
            LinkFault::RelayRange => Refusal::RelayRange(link),
            LinkFault::NotBelow => Refusal::NotBelow(link),
            LinkFault::Repeated => Refusal::Repeated(link),
        }
    }
}

// The numbers of a link are below n.
fn range_check(n: u16, a: Relay, b: Relay) -> Result<(), LinkFault>
    ensures { fault_of result ≡ pick (leb n a.0 || leb n b.0) 5 0 }
{
    if n <= a.0 || n <= b.0 {
        return Err(LinkFault::RelayRange);
    }
    Ok(())
}

// The low number of a link is below its high one.
fn rise_check(a: Relay, b: Relay) -> Result<(), LinkFault>
    ensures { fault_of result ≡ pick (leb b.0 a.0) 6 0 }
{
    if b.0 <= a.0 {
        return Err(LinkFault::NotBelow);
    }
    Ok(())
}

// A link's numbers alone: 5 comes before 6.
fn number_check(n: u16, a: Relay, b: Relay) -> Result<(), LinkFault>
    ensures { fault_of result ≡ pick (leb n a.0 || leb n b.0) 5 (pick (leb b.0 a.0) 6 0) }
{
    range_check(n, a, b)?;
    rise_check(a, b)
}

// Checks link by link, where no pair is marked yet. The two lists are lent side by side, so the links go by their index.
fn links_check(lows: &[u16], highs: &[u16], marks: &mut PairMarks) -> Result<(), Refusal>
    requires { (length lows.now ≡ length highs.now) × Seen marks.old.n marks.old.seen.now lows.now highs.now 0 }
    ensures { outcome result ≡ links_check marks.old.n lows.now highs.now 0 (length lows.now) }
{
    for i in 0..lows.len() {
        if let Err(fault) = marks.check_link(Relay(lows[i]), Relay(highs[i])) {
            return Err(fault.of_link(i));
        }
    }
    Ok(())
}

// Checks link by link, with row starts for so many relays and so many words of marks.
fn links_check_in<const RELAYS: usize, const WORDS: usize>(
    n: u16,
    lows: &[u16],
    highs: &[u16],
) -> Result<(), Refusal>
    requires sizes { (n ≤ RELAYS) × (RELAYS ≤ 1000) × (row_start n ≤ 64 * WORDS) × (WORDS ≤ 7805) }
    requires even { length lows.now ≡ length highs.now }
    ensures { outcome result ≡ links_check n lows.now highs.now 0 (length lows.now) }
{
    let rows = row_starts::front::<RELAYS>();
    let mut seen = [0u64; WORDS];
    let mut marks = PairMarks {
        n,
        rows: &rows,
        seen: &mut seen,
    };
    links_check(lows, highs, &mut marks)
}

// Checks link by link, with row starts and marks for as many relays as it takes, so that little is cleared for a small network.
fn all_links_check(n: u16, lows: &[u16], highs: &[u16]) -> Result<(), Refusal>
    requires { (n ≤ 1000) × (length lows.now ≡ length highs.now) }
    ensures { outcome result ≡ links_check n lows.now highs.now 0 (length lows.now) }
{
    if n <= FEWEST_RELAYS {
        links_check_in::<FEWEST_RELAY_ROOM, 8>(n, lows, highs)
    } else if n <= FEW_RELAYS {
        links_check_in::<FEW_RELAY_ROOM, 127>(n, lows, highs)
    } else if n <= 512 {
        links_check_in::<RELAY_ROOM, 2044>(n, lows, highs)
    } else {
        links_check_in::<RELAY_ROOM, 7805>(n, lows, highs)
    }
}

impl<'a> Table<'a> {
    // The table check, which every operation on a table makes first.
    pub fn check(self) -> Result<Network<'a>, Refusal>
        ensures answer { outcome result ≡ of_table table_check self.entry }
        ensures same { IfOk result (λ network. network.table ≡ self.entry) }
    {
        if self.n < 1 || RELAYS < self.n {
            return Err(Refusal::RelayCount);
        }
        if self.lows.len() != self.highs.len() || LINK_ROOM < self.lows.len() {
            return Err(Refusal::LinkCount);
        }
        all_links_check(self.n, self.lows, self.highs)?;
        states::states_check(self.n, self.states)?;
        Ok(Network { table: self })
    }
}
