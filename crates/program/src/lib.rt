// What every program has: its own lists, the network read into them and its text printed, the border between two texts, the refused
// line, parts of lines, and printing into a lent list.
#![tactic(auto)]

pub mod border;
pub mod into;
pub mod line;
pub mod made;
pub mod refusal;
pub mod rooms;
