// Memory banks 0 and 1 of a gear (IEC 62386 part 102, 9.10), by value: built from the random address, read, written and set.
// No function asks anything of its arguments: any random address, bank, offset and stored byte has an answer.
#![tactic(auto)]

pub mod build;
pub mod memory;
pub mod setters;
