// Every call on a record, on the 512 bytes of a slot: the same answers, and the image of the same record, as the calls by value.
// Each tests its slot first: 7 for one of another length, then 2 for bytes that are no image of a fit record.
#![tactic(auto)]

mod activation;
pub mod address;
pub mod colours;
mod config;
mod levels;
mod marks;
pub mod memory;
pub mod pairing;
pub mod power;
pub mod reads;
pub mod reply;
mod report;
mod reset;
mod serve;
pub mod setters;
mod staging;
mod steps;
mod stores;
mod storing;
pub mod write;
