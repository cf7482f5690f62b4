// Why a text is not read.
ghost use Rattle.std.specs.Prelude.{◌≡◌};
ghost use Rattle.reader.specs.declared.faults.ReadingFault.TheVariants.{MessageNumber as unknown};
ghost use Rattle.reader.specs.Faults.{number_of, place_of, of_text};

use fields::faults::TextFault;
use sheets::standard::UnknownMessage;

// The first question that a reading fails, with its place.
#[derive(Clone, Copy, PartialEq, Eq, Debug)]
pub enum ReadingFault {
    // The message number is neither 565 nor 567.
    MessageNumber,
    // The text is empty, or longer than 10,000 bytes.
    Length,
    // Here stands the first byte that is neither of set x nor half of a CR LF.
    Character(usize),
    // Here starts the first bad line.
    Line(usize),
    // Here starts the first field with which no sentence goes on; or the text ends here, too early.
    Order(usize),
    // Here starts the first value that has not its row's format.
    Value(usize),
    // The field table has not an entry for each field of a text of this length.
    Table(usize),
}

impl ReadingFault {
    // The number of the question that is answered no.
    // Stays a number: the rules name each question by it, and it is what a caller is told.
    pub fn number(self) -> u8
        ensures { result ≡ number_of self }
    {
        match self {
            ReadingFault::MessageNumber => 1,
            ReadingFault::Length => 2,
            ReadingFault::Character(_) => 3,
            ReadingFault::Line(_) => 4,
            ReadingFault::Order(_) => 5,
            ReadingFault::Value(_) => 6,
            ReadingFault::Table(_) => 7,
        }
    }

    // The place where it is; 0 where none stands.
    pub fn place(self) -> usize
        ensures { result ≡ place_of self }
    {
        match self {
            ReadingFault::MessageNumber | ReadingFault::Length => 0,
            ReadingFault::Character(at) => at,
            ReadingFault::Line(start) => start,
            ReadingFault::Order(start) => start,
            ReadingFault::Value(start) => start,
            ReadingFault::Table(len) => len,
        }
    }
}

// Stays a list of variants: a fault of the text is this fault with its own number and place, which callers name without the text.
impl From<TextFault> for ReadingFault {
    ghost from_gives = { λ e r. r ≡ of_text e };

    fn from(fault: TextFault) -> ReadingFault {
        match fault {
            TextFault::Length => ReadingFault::Length,
            TextFault::Character(at) => ReadingFault::Character(at),
            TextFault::Line(start) => ReadingFault::Line(start),
        }
    }
}

// No sheet has the message number.
impl From<UnknownMessage> for ReadingFault {
    ghost from_gives = { λ _ r. r ≡ unknown };

    fn from(_fault: UnknownMessage) -> ReadingFault {
        ReadingFault::MessageNumber
    }
}
