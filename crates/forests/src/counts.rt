// The count of each relay: 0 once it is placed and if it is withdrawn, else one more than its links to placed relays.
ghost use Rattle.std.specs.Prelude.{◌<◌, ◌≡◌};
ghost use Rattle.forests.specs.Counts.{raised_count, forest_number};

// The count with one more link to a placed relay; a placed relay's count stays.
pub(crate) fn raised(count: u16) -> u16
    requires { count < 1000 }
    ensures { result ≡ raised_count count }
{
    if count == 0 { 0 } else { count + 1 }
}

// The forest number of a link to a relay with this count, `old` if that relay is placed; a sum, since one of the two is 0.
pub(crate) fn number(count: u16, old: u16) -> u16
    requires { 0 < count → old ≡ 0 }
    ensures { result ≡ forest_number count old }
{
    old + count
}
