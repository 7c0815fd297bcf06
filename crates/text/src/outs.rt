// The states of the relays in a text: an `out` line for each one that is withdrawn, in rising order, and the end behind them.
ghost use Rattle.std.specs.Prelude.{◌≡◌, ◌+◌, ◌≤◌, ◌<◌, eqb, length};
ghost use Rattle.definitions.specs.Form.{byte_at};
ghost use Rattle.text.specs.Outs.{ServedUpTo, WithdrawnAt, OutRead, OutsRead, StatesRead};

use crate::mark::form_at;
use crate::scan::{Due, byte};
use network::{Refusal, Relay};

// Whether an `out` line is due: `(out` and `(end` part at the second byte.
fn out_due(text: &[u8], at: usize) -> bool
    ensures { result ≡ eqb (byte_at text.now (at + 1)) 111 }
{
    at < text.len() && byte(text, at + 1) == b'o'
}

// The `out` line due, where the relays below `next` have their states.
fn read_out(text: &[u8], n: u16, next: Relay, at: usize) -> Result<(Relay, usize), Refusal>
    ensures { OutRead text.now n next.0 at result }
{
    let (relay, _, p) = form_at(text, at, Due::Out)?;
    if n <= relay || relay < next.0 {
        return Err(Refusal::States);
    }
    Ok((Relay(relay), p))
}

// The relays from one on are in service, up to another.
pub fn serve(states: &mut [u16], from: usize, to: usize)
    requires { (from ≤ to) × (to ≤ length states.old) }
    ensures { ServedUpTo from to states.old states.new }
{
    states[from..to].fill(1);
}

// The relays from `next` on are in service up to one that is withdrawn.
fn withdraw(states: &mut [u16], next: Relay, relay: Relay)
    requires { (next.0 ≤ relay.0) × (relay.0 < length states.old) }
    ensures { WithdrawnAt next.0 relay.0 states.old states.new }
{
    let at = relay.0 as usize;
    serve(states, next.0 as usize, at);
    states[at] = 0;
}

// All `out` lines, and ones for the relays behind the last of them. The text says how many there are only by its lines: no range.
fn read_outs(text: &[u8], n: u16, at: usize, states: &mut [u16]) -> Result<usize, Refusal>
    requires { (n ≤ 1000) × (n ≤ length states.old) }
    ensures { OutsRead text.now n at states.old states.new result }
{
    let mut p = at;
    let mut next: u16 = 0;
    while out_due(text, p) {
        let (relay, behind) = read_out(text, n, Relay(next), p)?;
        withdraw(states, Relay(next), relay);
        next = relay.0 + 1;
        p = behind;
    }
    serve(states, next as usize, n as usize);
    Ok(p)
}

// The states of all relays, and the end.
pub(crate) fn read_states(
    text: &[u8],
    n: u16,
    at: usize,
    states: &mut [u16],
) -> Result<usize, Refusal>
    requires { (n ≤ 1000) × (n ≤ length states.old) }
    ensures { StatesRead text.now n at states.old states.new result }
{
    let p = read_outs(text, n, at, states)?;
    crate::rows::read_end(text, p)
}
