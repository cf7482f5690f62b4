// Why a line of a day file is not carried out, and what to do.
use std::alloc::{AllocError, AllocFailed};
use std::{fmt, io};

#[derive(Clone, Copy)]
pub enum Mistake<'a> {
    // No command begins so.
    Unknown,
    // What follows the word is not what has to.
    Draft,
    Question,
    Open,
    Take,
    State,
    Figure,
    Alone,
    Fields,
    Read,
    Rewrite,
    // The command has no place here.
    NoDraft,
    NoMeeting,
    AlreadyOpen,
    AlreadyClosed,
    // The file of this name cannot be read.
    Unreadable(&'a str),
    NoMemory,
    NoOutput,
}

impl From<AllocError> for Mistake<'_> {
    fn from(_e: AllocError) -> Self {
        Mistake::NoMemory
    }
}

// What found no place is let go.
impl<T: Drop> From<AllocFailed<T>> for Mistake<'_> {
    fn from(_refused: AllocFailed<T>) -> Self {
        Mistake::NoMemory
    }
}

impl From<io::Error> for Mistake<'_> {
    fn from(_e: io::Error) -> Self {
        Mistake::NoOutput
    }
}

// The line of this number is not carried out, and so none behind it.
#[derive(Clone, Copy)]
pub struct Stop<'a> {
    pub line: usize,
    pub mistake: Mistake<'a>,
}

impl fmt::Display for Stop<'_> {
    fn fmt<W: fmt::Write>(&self, f: &mut fmt::Formatter<W>) -> fmt::Result {
        write!(f, "error: line {}: ", self.line)?;
        if let Mistake::Unreadable(file) = self.mistake {
            write!(f, "the file {file} ")?;
        }
        f.write_str(in_words(self.mistake))
    }
}

// What is wrong, behind the file that it is about, and what to do.
fn in_words(mistake: Mistake<'_>) -> &'static str {
    match mistake {
        Mistake::Unknown => {
            "no command begins with this word: write `draft`, `question`, `open`, `take`, `state`, `figure`, `total`, `close`, `minute`, `fields`, `read` or `rewrite`"
        }
        Mistake::Draft => "an event and an ISIN have to follow: write `draft EVENT ISIN`",
        Mistake::Question => {
            "a number and a kind have to follow: write `question N ordinary` or `question N cumulative MULTIPLIER CANDIDATES`"
        }
        Mistake::Open => {
            "a list, `arrival` or `ordered`, and four numbers have to follow, the second 0, 1 or 2: write `open LIST CAPACITY FRONTS RECORDS ENTRIES`"
        }
        Mistake::Take => {
            "a message number and one file name have to follow: write `take NUMBER FILE`"
        }
        Mistake::State => "a reference has to follow: write `state REFERENCE`",
        Mistake::Figure => "two numbers have to follow: write `figure QUESTION CELL`",
        Mistake::Alone => "nothing may follow: write `total`, `close` or `minute` alone",
        Mistake::Fields => "one file name has to follow: write `fields FILE`",
        Mistake::Read => {
            "a message number and one file name have to follow: write `read NUMBER FILE`, or `read NUMBER FILE ENTRIES` for a table of that size"
        }
        Mistake::Rewrite => {
            "a message number, a file name and a number of bytes have to follow: write `rewrite NUMBER FILE ROOM`"
        }
        Mistake::NoDraft => "no draft is named: write `draft EVENT ISIN` first",
        Mistake::NoMeeting => {
            "no meeting is open: write `open LIST CAPACITY FRONTS RECORDS ENTRIES` first"
        }
        Mistake::AlreadyOpen => {
            "the meeting is open already: write this before `open`, or in a day file of its own"
        }
        Mistake::AlreadyClosed => "the meeting is closed already: write this before `close`",
        Mistake::Unreadable(_) => "cannot be read: name a file that is there",
        Mistake::NoMemory => "there is no memory left: free some, and run the day again",
        Mistake::NoOutput => {
            "the output cannot be written: make room for it, and run the day again"
        }
    }
}
