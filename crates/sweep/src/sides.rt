// How long the array for a side of the sweep is: two entries for 0 and each place behind the first PRIORS.
use crate::side::PRIORS;

// Room for the places of every network.
pub const SIDE_ROOM: usize = PRIORS + 2002;

// Room for the places of a small one.
pub const SMALL_SIDE_ROOM: usize = PRIORS + 258;
