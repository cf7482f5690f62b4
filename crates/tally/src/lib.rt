// Tallies: counting that can be taken back.
#![tactic(auto)]

pub mod ballot;
pub mod both;
mod cells;
pub mod control;
pub mod interface;
pub mod lists;
mod remainder;
pub mod vote;
