// What a message orders, once it is found to be in order by itself.
use crate::record::Lodging;
use message::instruction::Rights;
use message::status::{Process, StatusCode};
use message::text::ShortText;
use register::reference::Reference;

// What a cancellation says of the instruction that it is about.
#[derive(Clone, Copy)]
pub struct Claim {
    pub rights: Rights,
    pub account: ShortText,
    pub option: ShortText,
    pub holding: u64,
}

#[derive(Clone, Copy)]
pub enum Order {
    // A new instruction.
    Lodge(Lodging),
    // A new instruction, in place of that one.
    Replace(Lodging, Reference),
    // The cancellation of an instruction is asked.
    Cancel(Reference, Claim),
    // The depository reports on an instruction, or on its cancellation.
    Report(Reference, Process, StatusCode),
}
