// Why a text is not written.
ghost use Rattle.std.specs.Prelude.{◌≡◌};
ghost use Rattle.writer.specs.declared.faults.WritingFault.TheVariants.{MessageNumber as unknown, Length as too_long};
ghost use Rattle.writer.specs.Faults.{number_of, place_of, of_reading};

use reader::faults::ReadingFault;
use sheets::standard::UnknownMessage;
use short::short::Full;

// The first question that a writing fails, with its place.
#[derive(Clone, Copy, PartialEq, Eq, Debug)]
pub enum WritingFault {
    // The message number is neither 565 nor 567.
    MessageNumber,
    // The entry of this number, from 0, is the first that cannot be spelled.
    Entry(usize),
    // The text spelled is empty, or longer than 10,000 bytes.
    Length,
    // Here, in the text spelled, stands the first byte that is neither of set x nor half of a CR LF.
    Character(usize),
    // Here starts its first bad line.
    Line(usize),
    // Here starts its first field with which no sentence goes on; or it ends here, too early.
    Order(usize),
    // Here starts its first value that has not its row's format.
    Value(usize),
    // The output does not hold it.
    Output,
}

impl WritingFault {
    // The number of the question that is answered no.
    // Stays a number: the rules name each question by it, and it is what a caller is told.
    pub fn number(self) -> u8
        ensures { result ≡ number_of self }
    {
        match self {
            WritingFault::MessageNumber => 1,
            WritingFault::Length => 2,
            WritingFault::Character(_) => 3,
            WritingFault::Line(_) => 4,
            WritingFault::Order(_) => 5,
            WritingFault::Value(_) => 6,
            WritingFault::Entry(_) => 8,
            WritingFault::Output => 9,
        }
    }

    // The place where it is; 0 where none stands.
    pub fn place(self) -> usize
        ensures { result ≡ place_of self }
    {
        match self {
            WritingFault::MessageNumber | WritingFault::Length | WritingFault::Output => 0,
            WritingFault::Entry(index) => index,
            WritingFault::Character(at) => at,
            WritingFault::Line(start) => start,
            WritingFault::Order(start) => start,
            WritingFault::Value(start) => start,
        }
    }
}

// No sheet has the message number.
impl From<UnknownMessage> for WritingFault {
    ghost from_gives = { λ _ r. r ≡ unknown };

    fn from(_fault: UnknownMessage) -> WritingFault {
        WritingFault::MessageNumber
    }
}

// The text spelled is longer than any may be.
impl From<Full> for WritingFault {
    ghost from_gives = { λ _ r. r ≡ too_long };

    fn from(_fault: Full) -> WritingFault {
        WritingFault::Length
    }
}

// What the check of the text spelled finds. It never asks for a message number or a table.
// Stays a list of variants: a fault of the reading is this fault with its own number and place, which callers name without the reading.
impl From<ReadingFault> for WritingFault {
    ghost from_gives = { λ e r. r ≡ of_reading e };

    fn from(fault: ReadingFault) -> WritingFault {
        match fault {
            ReadingFault::MessageNumber => WritingFault::MessageNumber,
            ReadingFault::Length => WritingFault::Length,
            ReadingFault::Character(at) => WritingFault::Character(at),
            ReadingFault::Line(start) => WritingFault::Line(start),
            ReadingFault::Order(start) => WritingFault::Order(start),
            ReadingFault::Value(start) => WritingFault::Value(start),
            ReadingFault::Table(_) => WritingFault::Output,
        }
    }
}
