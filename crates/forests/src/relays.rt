// The list of relays: its first entry, and a relay at each place.
ghost use Rattle.std.specs.Prelude.{◌-◌, ◌<◌, ◌≤◌, ◌≡◌, length, set};
ghost use Rattle.forests.specs.Scan.{begun_with};

use network::{Place, Relay};

// The list of relays begins with x, if any relay is to be placed.
pub(crate) fn begin(turns: u16, x: Relay, relays: &mut [u16])
    requires { turns ≤ length relays.old }
    ensures { relays.new ≡ begun_with turns x.0 relays.old }
{
    if 0 < turns {
        relays[0] = x.0;
    }
}

// Relay x gets place v.
pub(crate) fn put(x: Relay, v: Place, relays: &mut [u16], places: &mut [u16])
    requires { (0 < v.0) × (v.0 ≤ length relays.old) × (x.0 < length places.old) }
    ensures relays_left { relays.new ≡ set relays.old (v.0 - 1) x.0 }
    ensures places_left { places.new ≡ set places.old x.0 v.0 }
{
    let at = (v.0 - 1) as usize;
    let r = x.0 as usize;
    relays[at] = x.0;
    places[r] = v.0;
}
