#![tactic(auto)]

pub mod draft;
mod examining;
pub mod meeting;
mod notice;
mod taking;
