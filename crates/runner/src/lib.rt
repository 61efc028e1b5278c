// The session file and its runner: the file's three sections as parts of the lent bytes, and the lines that a run writes.
#![tactic(auto)]

pub mod ask;
mod follow;
mod line;
mod perform;
mod recolour;
pub mod run;
mod write;
