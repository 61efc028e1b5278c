// The calls on a record beside writes and queries: pairs of frames, addresses, power, colour, memory, plain reads and setters.
// Each serves a fit record and refuses any other.
#![tactic(auto)]

pub mod address;
pub mod colours;
pub mod memory;
pub mod pairing;
pub mod power;
pub mod reads;
pub mod setters;
