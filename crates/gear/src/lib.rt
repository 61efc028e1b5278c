// The record of a lighting gear (IEC 62386 parts 102, 207, 208 and 209), by value: a call takes the record and hands back the
// record that follows, with an answer or a refusal. No call asks anything of its arguments.
#![tactic(auto)]

pub mod answer;
pub mod command;
pub mod condition;
pub mod marks;
pub mod parts;
pub mod profile;
pub mod record;
pub mod scene;
pub mod serve;
pub mod settings;
pub mod write;
