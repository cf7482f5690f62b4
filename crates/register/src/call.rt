// A call of a register and its answer, as values: every register tells its own rule over these.
use crate::reference::Reference;

// Why a pair was not entered.
#[derive(Clone, Copy, PartialEq, Eq, Debug)]
pub enum EnterRefusal {
    AlreadyThere,
    Full,
}

#[derive(Clone, Copy)]
pub enum Call {
    Find(Reference),
    Enter(Reference, usize),
    Strike(Reference),
    Clear,
}

// A find and a strike answer a number or none, an entering whether it was accepted, and a clearing nothing.
#[derive(Clone, Copy, PartialEq, Eq, Debug)]
pub enum Answer {
    Number(Option<usize>),
    Verdict(Result<(), EnterRefusal>),
    Cleared,
}
