// The level of a gear and the limits around it (IEC 62386 part 102), by value.
#![tactic(auto)]

pub mod arc;
pub mod levels;
