// The book of a meeting: which instructions stand, in which records, and what a message does to them.
#![tactic(auto)]

pub mod acting;
pub mod desk;
pub mod faults;
pub mod finding;
pub mod judging;
mod moves;
pub mod order;
pub mod record;
pub mod status;
