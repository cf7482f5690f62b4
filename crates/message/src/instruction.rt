// What an instruction to vote says, message 565.
ghost use Rattle.std.specs.Prelude.{◌≡◌, min, length};

use crate::text::ShortText;
use format::votes::VoteText;
use register::reference::Reference;
use short::short::Short;

// What the instruction is for: a new instruction (NEWM), or to cancel one (CANC).
#[derive(Clone, Copy, PartialEq, Eq, Debug)]
pub enum Function {
    New,
    Cancel,
}

// The rights identifier of a holder: country and identifier of an alternate identifier with the code RHID.
#[derive(Clone, Copy, PartialEq, Eq)]
pub struct Rights {
    pub country: [u8; 2],
    pub identifier: ShortText,
}

// The most votes of a message that are kept.
pub const MOST_VOTES: usize = 64;

// The votes of a message: the first 64 of them, and how many there are in all. As many are kept as there are, up to 64.
#[derive(Clone, Copy)]
pub struct GivenVotes {
    pub kept: Short<VoteText, MOST_VOTES>,
    pub count: usize,
    pub ghost first: { length kept.items ≡ min count 64 },
}

#[derive(Clone, Copy)]
pub struct Instruction {
    // CORP, the reference of the event
    pub event: Reference,
    // SEME, the instruction's own reference
    pub reference: Reference,
    pub function: Function,
    // PREV, where there is a LINK
    pub previous: Option<Reference>,
    // the ISIN, its twelve characters
    pub isin: ShortText,
    // SAFE
    pub account: ShortText,
    // the rights identifier, where just one holder is named by one
    pub rights: Option<Rights>,
    // OWND
    pub holding: u64,
    // CAON
    pub option: ShortText,
    // QINS
    pub quantity: u64,
    // INST
    pub votes: GivenVotes,
}
