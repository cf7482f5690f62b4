// A refusal: its number, its place, the word of its origin, and the question in plain words.
use agenda::faults::AgendaFault;
use book::faults::{BookFault, Origin};
use reader::faults::ReadingFault;
use std::fmt;
use writer::faults::WritingFault;

#[derive(Clone, Copy)]
pub enum Refusal {
    Reading(ReadingFault),
    Writing(WritingFault),
    Book(BookFault),
    Agenda(AgendaFault),
}

impl Refusal {
    fn number(self) -> u8 {
        match self {
            Refusal::Reading(fault) => fault.number(),
            Refusal::Writing(fault) => fault.number(),
            Refusal::Book(fault) => fault.number(),
            Refusal::Agenda(fault) => fault.number(),
        }
    }

    fn place(self) -> usize {
        match self {
            Refusal::Reading(fault) => fault.place(),
            Refusal::Writing(fault) => fault.place(),
            Refusal::Book(fault) => fault.place(),
            Refusal::Agenda(_) => 0,
        }
    }

    fn origin(self) -> &'static str {
        match self {
            Refusal::Reading(_) => "reading",
            Refusal::Writing(_) => "writing",
            Refusal::Book(fault) => match fault.origin() {
                Origin::Reading => "reading",
                Origin::Book => "book",
            },
            Refusal::Agenda(_) => "agenda",
        }
    }
}

impl fmt::Display for Refusal {
    fn fmt<W: fmt::Write>(&self, f: &mut fmt::Formatter<W>) -> fmt::Result {
        write!(
            f,
            "refused {} ({}) {}: ",
            self.number(),
            self.place(),
            self.origin()
        )?;
        match *self {
            Refusal::Book(BookFault::Vote(vote)) => write!(f, "vote {vote} ")?,
            Refusal::Book(BookFault::Sum(question)) => {
                write!(f, "the votes on question {question} ")?;
            }
            _ => {}
        }
        f.write_str(in_words(*self))
    }
}

// What the question was, behind the vote or the question of the agenda that it was about.
fn in_words(refusal: Refusal) -> &'static str {
    match refusal {
        Refusal::Reading(fault) => reading_in_words(fault),
        Refusal::Writing(fault) => writing_in_words(fault),
        Refusal::Book(fault) => book_in_words(fault),
        Refusal::Agenda(fault) => agenda_in_words(fault),
    }
}

fn reading_in_words(fault: ReadingFault) -> &'static str {
    match fault {
        ReadingFault::MessageNumber => "the message number is neither 565 nor 567",
        ReadingFault::Length => "the text has not from 1 to 10000 bytes",
        ReadingFault::Character(_) => "the byte there is not of set x and not half of a CR LF",
        ReadingFault::Line(_) => {
            "the line there has no CR LF, is empty, begins with '-', has a wrong header, or is the first and begins no field"
        }
        ReadingFault::Order(_) =>
            "no message goes on with the field there, or the text ends there too early",
        ReadingFault::Value(_) => "the value there has not the format of its row",
        ReadingFault::Table(_) => "the field table has not an entry for each field",
    }
}

fn writing_in_words(fault: WritingFault) -> &'static str {
    match fault {
        WritingFault::Output => "the output is shorter than the text",
        WritingFault::Entry(_) => {
            "the entry has no row, or no part with its key inside the bytes, or a field begins in its part"
        }
        _ => "the entries do not spell a message",
    }
}

fn book_in_words(fault: BookFault) -> &'static str {
    match fault {
        BookFault::Reading(fault) => reading_in_words(fault),
        BookFault::Event => "the event or the ISIN is not the meeting's",
        BookFault::Content => "the message does not say what its function asks for",
        BookFault::Vote(_) => {
            "is past the 64th, or its question, kind, answer or candidate is not on the agenda, or its cell is voted on twice"
        }
        BookFault::Sum(_) => {
            "do not add up to the holding, or there is more than one on an ordinary question"
        }
        BookFault::AlreadyStanding => "the new instruction's reference stands already",
        BookFault::NotStanding =>
            "no instruction stands under the reference that the message names",
        BookFault::CancellationAsked => "the cancellation of that instruction is asked already",
        BookFault::Differs =>
            "that instruction has another rights identifier, account, option or holding",
        BookFault::RightsTaken => "an instruction stands under this rights identifier already",
        BookFault::Full => "as many instructions stand as there is room for",
        BookFault::CancellationNotAsked => "no cancellation of that instruction is asked",
    }
}

fn agenda_in_words(fault: AgendaFault) -> &'static str {
    match fault {
        AgendaFault::Name => {
            "the event is not 1 to 16 characters of set x, or the ISIN not twelve capital letters or digits"
        }
        AgendaFault::Question => "no agenda can have such a question",
        AgendaFault::Repeated => "the agenda has a question of this number already",
        AgendaFault::Cell => "the question or the cell is not on the agenda",
    }
}
