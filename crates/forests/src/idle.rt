// Withdrawn relays: how many are in service, and the links with a withdrawn end, which count for none. With all relays in service
// no link is looked at.
ghost use Rattle.std.specs.Prelude.{◌≤◌, ◌<◌, ◌≡◌, length, get_or};
ghost use Rattle.theory.specs.Accepted.{ProperStates};
ghost use Rattle.forests.specs.Counts.{turns_of};
ghost use Rattle.forests.specs.LinkCounts.{less_link, discounted, Discountable, ServingCounted};

// How many of the first n relays are in service.
pub fn serving(n: u16, states: &[u16]) -> u16
    requires { (n ≤ 1000) × ProperStates n states.now }
    ensures { result ≡ turns_of n states.now }
{
    let mut turns = 0;
    for state in states {
        turns += state;
    }
    turns
}

// Relay r has one link less.
fn less_link(r: usize, counts: &mut [u16])
    requires { (r < length counts.old) × (0 < get_or counts.old r 0) }
    ensures { counts.new ≡ less_link r counts.old }
{
    let count = counts[r];
    counts[r] = count - 1;
}

// The link a b counts at neither end if one is withdrawn; `both` is the sum of the states of the two.
fn discount_link(a: usize, b: usize, both: u16, counts: &mut [u16])
    requires { (a < b) × (b < length counts.old) × (both < 2 → (0 < get_or counts.old a 0) × (0 < get_or counts.old b 0)) }
    ensures { counts.new ≡ discounted a b both counts.old }
{
    if both < 2 {
        less_link(a, counts);
        less_link(b, counts);
    }
}

// Links with a withdrawn end count no more.
fn discount(lows: &[u16], highs: &[u16], states: &[u16], counts: &mut [u16])
    requires { Discountable (length states.now) lows.now highs.now states.now counts.old }
    ensures { ServingCounted lows.now highs.now states.now counts.new }
{
    for i in 0..lows.len() {
        let a = lows[i] as usize;
        let b = highs[i] as usize;
        discount_link(a, b, states[a] + states[b], counts);
    }
}

// The same, where any relay is withdrawn.
pub(crate) fn count_serving(
    n: u16,
    turns: u16,
    lows: &[u16],
    highs: &[u16],
    states: &[u16],
    counts: &mut [u16],
)
    requires { (turns ≡ turns_of n states.now) × Discountable n lows.now highs.now states.now counts.old }
    ensures { ServingCounted lows.now highs.now states.now counts.new }
{
    if turns < n {
        discount(lows, highs, states, counts);
    }
}
