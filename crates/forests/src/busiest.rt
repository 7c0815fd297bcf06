// The relay that comes first: of those in service with the most links the lowest.
ghost use Rattle.std.specs.Prelude.{◌<◌, ◌≤◌, ◌≡◌, length};
ghost use Rattle.forests.specs.Busiest.{key_of, serving_key, Busiest};

use network::Relay;

// The key of relay r with so many links: the greater the more they are, of equals the lower r is.
fn key(r: Relay, count: u16) -> u32
    requires { r.0 < 1000 }
    ensures { result ≡ key_of r.0 count }
{
    count as u32 * 1024 + (1023 - r.0 as u32)
}

// The same if relay r is in service, and 0, which is less than any key, if it is withdrawn.
fn serving_key(r: Relay, state: u16, count: u16) -> u32
    requires { r.0 < 1000 }
    ensures { result ≡ serving_key r.0 state count }
{
    let k = key(r, count);
    if state == 1 { k } else { 0 }
}

// The lowest of those of the first n relays that are in service and have the greatest count; any number where none is.
pub(crate) fn busiest(n: u16, states: &[u16], counts: &[u16]) -> Relay
    requires { (n ≤ 1000) × (n ≤ length counts.now) × (n ≤ length states.now) }
    ensures { Busiest n states.now counts.now result.0 }
{
    let mut best = 0u32;
    for r in 0..n {
        let at = r as usize;
        best = best.max(serving_key(Relay(r), states[at], counts[at]));
    }
    Relay((1023 - best % 1024) as u16)
}
