// Sheets: the layout of a message as a list of rows, which field is of which row, and in which order the rows may stand.
#![tactic(auto)]

pub mod interface;
pub mod keys;
pub mod marks;
pub mod order;
pub mod rows;
pub mod steps;
pub mod walk;
