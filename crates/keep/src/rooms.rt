// The list's own output: zeros, and long enough for every list of links.
ghost use Rattle.std.specs.Prelude.{◌≡◌};
ghost use Rattle.definitions.specs.Keep.{lease_room};
ghost use Rattle.definitions.specs.Program.{room};

// The bytes for everything that is printed.
pub const OUTPUT: usize = 66067;

pub fn output() -> [u8; OUTPUT]
    ensures { result ≡ room lease_room }
{
    [0; OUTPUT]
}
