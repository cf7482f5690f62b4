// Reading: a text into a field table, by a sheet.
#![tactic(auto)]

pub mod faults;
pub mod reading;
pub mod table;
pub mod values;
