// The limits of document 01: so many relays, links and routes at most. A network of few relays and links is worked on in small
// arrays, one of very few in the smallest.
pub const RELAYS: u16 = 1000;

pub const LINKS: u16 = 3000;

pub const ROUTES: u16 = 32;

// The same as lengths of lists.
pub const RELAY_ROOM: usize = RELAYS as usize;

pub const LINK_ROOM: usize = LINKS as usize;

pub const ROUTE_ROOM: usize = ROUTES as usize;

pub const FEW_RELAYS: u16 = 128;

pub const FEW_RELAY_ROOM: usize = FEW_RELAYS as usize;

pub const FEW_LINKS: usize = 384;

pub const FEWEST_RELAYS: u16 = 32;

pub const FEWEST_RELAY_ROOM: usize = FEWEST_RELAYS as usize;

pub const FEWEST_LINKS: usize = 96;
