// Why a message is not taken.
ghost use Rattle.std.specs.Prelude.{◌≡◌};
ghost use Rattle.book.specs.Faults.{number_of, place_of, origin_of};
ghost use Rattle.book.specs.declared.faults.BookFault.TheVariants.{Reading as of_reading};

use reader::faults::ReadingFault;

// The first question that a taking fails, with its place.
#[derive(Clone, Copy, PartialEq, Eq, Debug)]
pub enum BookFault {
    // The text is not read.
    Reading(ReadingFault),
    // The event or the ISIN is not the meeting's.
    Event,
    // The message does not say what its function asks for.
    Content,
    // This vote, counted from 1, is the first bad one.
    Vote(usize),
    // On this question, the least, the votes do not add up.
    Sum(u8),
    // The new instruction's reference stands already.
    AlreadyStanding,
    // The instruction that the message names does not stand.
    NotStanding,
    // The cancellation of that instruction is asked.
    CancellationAsked,
    // That instruction has not the same rights identifier, or not the same account, option or holding.
    Differs,
    // An instruction stands under this rights identifier.
    RightsTaken,
    // As many stand as there is room for.
    Full,
    // The cancellation is not asked.
    CancellationNotAsked,
}

// What a refused question is about.
#[derive(Clone, Copy, PartialEq, Eq, Debug)]
pub enum Origin {
    Reading,
    Book,
}

impl BookFault {
    // The number of the question that is answered no.
    // Stays a number: the rules name each question by it, and it is what a caller is told.
    pub fn number(self) -> u8
        ensures { result ≡ number_of self }
    {
        match self {
            BookFault::Reading(fault) => fault.number(),
            BookFault::Event => 10,
            BookFault::Content => 11,
            BookFault::Vote(_) => 12,
            BookFault::Sum(_) => 13,
            BookFault::AlreadyStanding => 14,
            BookFault::NotStanding => 15,
            BookFault::CancellationAsked => 16,
            BookFault::Differs => 17,
            BookFault::RightsTaken => 18,
            BookFault::Full => 19,
            BookFault::CancellationNotAsked => 20,
        }
    }

    // The place where it is; 0 where none stands.
    pub fn place(self) -> usize
        ensures { result ≡ place_of self }
    {
        match self {
            BookFault::Reading(fault) => fault.place(),
            BookFault::Vote(place) => place,
            BookFault::Sum(question) => usize::from(question),
            _ => 0,
        }
    }

    // What the question is about.
    pub fn origin(self) -> Origin
        ensures { result ≡ origin_of self }
    {
        match self {
            BookFault::Reading(_) => Origin::Reading,
            _ => Origin::Book,
        }
    }
}

impl From<ReadingFault> for BookFault {
    ghost from_gives = { λ e r. r ≡ of_reading e };

    fn from(fault: ReadingFault) -> BookFault {
        BookFault::Reading(fault)
    }
}
