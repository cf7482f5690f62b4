// A meeting from its opening to its end: a list of calls carried out, and the law that every such list obeys.
#![tactic(auto)]

pub mod call;
pub mod conduct;
