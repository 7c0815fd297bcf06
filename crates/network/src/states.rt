// The states of the relays, 1 in service or 0 withdrawn: whether a relay is in service, and the last step of the table check.
ghost use Rattle.std.specs.Prelude.{[], ◌≡◌, ◌<◌, length};
ghost use Rattle.definitions.specs.Outcome.{done, refuse_if, and_then};
ghost use Rattle.definitions.specs.Network.{serves, states_fault};
ghost use Rattle.network.specs.Answers.{outcome};

use crate::Relay;
use crate::refusal::Refusal;

// Whether a relay is in service. A state is a number and no enum: the list of states is lent by C.
pub fn in_service(states: &[u16], relay: Relay) -> bool
    requires { relay.0 < length states.now }
    ensures { result ≡ serves states.now relay.0 }
{
    let at = relay.0 as usize;
    states[at] == 1
}

// The list is not n long, or has an entry other than 0 and 1. All entries are gathered before the one test, which the
// compiler does several at a time.
fn states_fault(n: u16, states: &[u16]) -> bool
    ensures { result ≡ states_fault n states.now }
{
    if states.len() != n as usize {
        return true;
    }
    let mut all = 0;
    for state in states {
        all |= *state;
    }
    1 < all
}

// The states of n relays.
pub(crate) fn states_check(n: u16, states: &[u16]) -> Result<(), Refusal>
    ensures { outcome result ≡ refuse_if (states_fault n states.now) 16 0 (done []) }
{
    if states_fault(n, states) {
        return Err(Refusal::States);
    }
    Ok(())
}
