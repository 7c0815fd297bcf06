// A program's own lists for a network, long enough for every one, and the network that a reading leaves in their front.
ghost use Rattle.std.specs.Prelude.{◌≡◌};
ghost use Rattle.definitions.specs.Program.{room};
ghost use Rattle.definitions.specs.Text.{read_network};
ghost use Rattle.program.specs.ReadStage.{Front, Loads, front_network, network_in, network_outcome};

use network::limits::{LINK_ROOM, RELAY_ROOM};
use network::{Network, Refusal, Table};
use text::{TableSize, read};

#[derive(Drop)]
pub struct Rooms {
    pub lows: [u16; LINK_ROOM],
    pub highs: [u16; LINK_ROOM],
    pub states: [u16; RELAY_ROOM],
}

impl Rooms {
    // Zeros.
    pub fn new() -> Rooms
        ensures { (result.lows ≡ room 3000) × (result.highs ≡ room 3000) × (result.states ≡ room 1000) }
    {
        Rooms {
            lows: [0; LINK_ROOM],
            highs: [0; LINK_ROOM],
            states: [0; RELAY_ROOM],
        }
    }

    // The network of this size in the front of the lists.
    pub fn network(&self, size: TableSize) -> Network<'_>
        requires { Front size.relays size.links self.now.lows self.now.highs self.now.states }
        ensures { network_in result ≡ front_network size.relays size.links self.now.lows self.now.highs self.now.states }
    {
        let links = size.links as usize;
        let relays = size.relays as usize;
        Network {
            table: Table {
                n: size.relays,
                lows: &self.lows[..links],
                highs: &self.highs[..links],
                states: &self.states[..relays],
            },
        }
    }

    // Read into the lists, with room for every network.
    pub fn read_in(&mut self, text: &[u8]) -> Result<TableSize, Refusal>
        ensures { Loads (read_network text.now 3000 3000 1000) result self.new.lows self.new.highs self.new.states }
    {
        read(text, &mut self.lows, &mut self.highs, &mut self.states)
    }

    // The same, and the network that it has left. It lends the lists, so what they hold afterwards is said of `read_in` alone.
    pub fn load<'a>(&'a mut self, text: &[u8]) -> Result<Network<'a>, Refusal>
        ensures { network_outcome result ≡ read_network text.now 3000 3000 1000 }
    {
        let size = self.read_in(text)?;
        Ok(self.network(size))
    }
}
