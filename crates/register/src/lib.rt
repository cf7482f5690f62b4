// Registers of references: one interface, two lists behind it and a front that remembers.
#![tactic(auto)]

pub mod arrival;
pub mod call;
pub mod entry;
pub mod front;
pub mod interface;
mod memory;
pub mod ordered;
pub mod reference;
mod row;
pub mod run;
mod slots;
