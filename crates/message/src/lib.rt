// What a message says, as values: an instruction to vote, or the status of one.
#![tactic(auto)]

mod instructing;
pub mod instruction;
pub mod message;
pub mod reading;
mod reporting;
mod rows;
pub mod status;
pub mod text;
mod values;
mod votes;
