// The formats of the values of fields: what stands behind a qualifier and its slashes.
#![tactic(auto)]

mod folds;
pub mod identifiers;
mod numbers;
pub mod quantities;
mod runs;
pub mod simple;
mod text;
pub mod votes;
