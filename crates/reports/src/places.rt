// The first pass over a set: each line is read, and for its relay is kept where those that it sees begin, and where those above it do.
ghost use Rattle.std.specs.Prelude.{◌≡◌, ◌≤◌, length, replicate};
ghost use Rattle.reports.specs.Offsets.{no_places};
ghost use Rattle.reports.specs.Places.{PlacedAll, StatesPut};

use crate::line::report_line;
use network::Refusal;

// Of a relay: the offset where those that it sees begin, and where those above it do. Both are 0 where it has not reported: those that a
// relay sees never begin at offset 0, as its line begins with `(report `. So it is no `Option`: that takes 24 bytes for 16, and the array
// no longer fits the first cache beside the lists: 0.95 in place of 0.33 µs for two relays.
#[derive(Clone, Copy)]
pub(crate) struct Places {
    pub seen: usize,
    pub above: usize,
}

// All the lines of a set: each is to be a report, no relay is to report twice, and no number is to be n or more, in this order.
pub(crate) fn place_all(text: &[u8], n: u16, places: &mut [Places]) -> Result<(), Refusal>
    requires { places.old ≡ replicate 1000 no_places }
    ensures { PlacedAll text.now n places.new result }
{
    let mut p: usize = 0;
    let mut twice = false;
    let mut beyond = false;
    // Line by line up to the text's end; a line tells where the next begins.
    while p < text.len() {
        let Some(report) = report_line(text, p) else {
            return Err(Refusal::ReportForm);
        };
        let relay = report.relay.0 as usize;
        twice |= 0 < places[relay].seen;
        beyond |= n <= report.top.0;
        places[relay] = Places {
            seen: report.seen,
            above: report.above,
        };
        p = report.next;
    }
    if twice {
        return Err(Refusal::ReportRelays);
    }
    if beyond {
        return Err(Refusal::RelayRange(0));
    }
    Ok(())
}

// The states of n relays, as far as the list goes: in service, with 1, are those that report.
pub(crate) fn put_states(places: &[Places], n: u16, states: &mut [u16])
    requires { (n ≤ 1000) × (length places.now ≡ 1000) }
    ensures { StatesPut places.now n states.old states.new }
{
    let count = n as usize;
    if states.len() < count {
        return;
    }
    for r in 0..count {
        states[r] = u16::from(0 < places[r].seen);
    }
}
