// The sheets of the two messages of a vote: the instruction, 565, and the status of an instruction, 567.
#![tactic(auto)]

mod codes;
mod names;
pub mod standard;
mod tables;
