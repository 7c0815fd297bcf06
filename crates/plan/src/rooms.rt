// How long the planner's own lists for the routes and the output are: enough for every network.
ghost use Rattle.std.specs.Prelude.{◌≡◌};
ghost use Rattle.definitions.specs.Plan.{output_room};
ghost use Rattle.definitions.specs.Program.{room};

// The relays of all the routes: 1,000 − 2 + 2 × 32 of them at most.
pub(crate) const RELAYS: usize = 1062;

// The links of all the routes: one less on each, 1,000 − 2 + 32 of them at most.
pub(crate) const LINKS: usize = 1030;

// Route's scratch: 32 × 1,000 entries.
pub(crate) const SCRATCH: usize = 32000;

// The bytes for everything that is printed.
pub const OUTPUT: usize = 9935;

pub fn output() -> [u8; OUTPUT]
    ensures { result ≡ room output_room }
{
    [0; OUTPUT]
}
