// The text of a message: its characters, its lines and its fields.
#![tactic(auto)]

pub mod characters;
pub mod faults;
pub mod headers;
mod lines;
pub mod walk;
