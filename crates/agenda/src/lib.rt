// The agenda of a meeting: its questions, the cells in which votes are cast, which votes of a message are good, and whether their sums hold.
#![tactic(auto)]

pub mod agenda;
pub mod casting;
pub mod faults;
pub mod question;
pub mod sums;
pub mod votes;
