// What is kept of a standing instruction.
use agenda::votes::Votes;
use message::instruction::Rights;
use message::text::ShortText;
use register::reference::Reference;

// Where an instruction is with the depository: lodged, or accepted by it; and in each case whether its cancellation is asked.
#[derive(Clone, Copy, PartialEq, Eq, Debug)]
pub enum State {
    Lodged { asked: bool },
    Accepted { asked: bool },
}

// What an instruction is lodged with.
#[derive(Clone, Copy)]
pub struct Lodging {
    pub reference: Reference,
    pub rights: Rights,
    pub account: ShortText,
    pub option: ShortText,
    pub holding: u64,
    pub votes: Votes,
}

// A standing instruction.
#[derive(Clone, Copy)]
pub struct Standing {
    pub lodging: Lodging,
    pub state: State,
}

// A record is empty, or holds a standing instruction.
pub type Record = Option<Standing>;
