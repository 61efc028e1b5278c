// The colour of a gear (IEC 62386 part 209), by value: settings, limits, staging, activation, steps, reports and values.
// No function asks anything of its arguments: crossed limits, unknown type bytes and numbers left over have an answer.
#![tactic(auto)]

pub mod activation;
pub mod bounded;
pub mod capability;
pub mod kinds;
pub mod limits;
pub mod record;
pub mod report;
pub mod setting;
pub mod staging;
pub mod steps;
pub mod tint;
pub mod value;
