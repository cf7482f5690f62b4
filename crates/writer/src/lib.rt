// Writing: a text from a field table, by a sheet.
#![tactic(auto)]

mod entries;
pub mod faults;
pub mod filing;
mod output;
mod parts;
mod scratch;
mod spelling;
pub mod writing;
