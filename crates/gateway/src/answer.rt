// What is printed of a meeting's answers.
use crate::refusal::Refusal;
use crate::show::Shown;
use book::acting::Taken;
use book::faults::BookFault;
use book::finding::Finding;
use book::record::State;
use conduct::call::{Answer, Reply};
use register::reference::Reference;
use std::fmt;
use std::vec::IntoIter;

// The answers of a meeting, to be told one after the other.
#[derive(Drop)]
pub struct Answers {
    left: IntoIter<Answer>,
}

impl Answers {
    pub fn new(items: Vec<Answer>) -> Answers {
        Answers {
            left: items.into_iter(),
        }
    }

    pub fn next(&mut self) -> Answered {
        Answered(self.left.next())
    }
}

// The answer to a call.
#[derive(Clone, Copy)]
pub struct Answered(Option<Answer>);

impl fmt::Display for Answered {
    fn fmt<W: fmt::Write>(&self, f: &mut fmt::Formatter<W>) -> fmt::Result {
        let Some(answer) = self.0 else {
            return f.write_str("not answered");
        };
        match answer {
            Answer::Taken(taking) => Receipt(taking).fmt(f),
            Answer::Told(reply) => Told(reply).fmt(f),
            Answer::Closed => f.write_str("closed"),
        }
    }
}

// What came of a taking.
#[derive(Clone, Copy)]
struct Receipt(Result<Taken, BookFault>);

impl fmt::Display for Receipt {
    fn fmt<W: fmt::Write>(&self, f: &mut fmt::Formatter<W>) -> fmt::Result {
        match self.0 {
            Ok(deed) => write!(f, "taken: {}", Did(deed)),
            Err(fault) => Refusal::Book(fault).fmt(f),
        }
    }
}

// What a message did.
#[derive(Clone, Copy)]
struct Did(Taken);

impl fmt::Display for Did {
    fn fmt<W: fmt::Write>(&self, f: &mut fmt::Formatter<W>) -> fmt::Result {
        match self.0 {
            Taken::Lodged(new) => write!(f, "{} lodged", Named(new)),
            Taken::Replaced(new, old) => {
                write!(f, "{} lodged in place of {}", Named(new), Named(old))
            }
            Taken::CancellationAsked(old) => write!(f, "cancellation of {} asked", Named(old)),
            Taken::Accepted(old) => write!(f, "{} accepted", Named(old)),
            Taken::Rejected(old) => write!(f, "{} rejected", Named(old)),
            Taken::Cancelled(old) => write!(f, "{} cancelled", Named(old)),
            Taken::CancellationRefused(old) => write!(f, "cancellation of {} refused", Named(old)),
            Taken::Nothing => f.write_str("nothing changed"),
        }
    }
}

// An instruction, by its reference.
#[derive(Clone, Copy)]
struct Named(Reference);

impl fmt::Display for Named {
    fn fmt<W: fmt::Write>(&self, f: &mut fmt::Formatter<W>) -> fmt::Result {
        Shown(self.0.as_bytes()).fmt(f)
    }
}

// What a question was told.
#[derive(Clone, Copy)]
struct Told(Reply);

impl fmt::Display for Told {
    fn fmt<W: fmt::Write>(&self, f: &mut fmt::Formatter<W>) -> fmt::Result {
        match self.0 {
            Reply::State(Some(finding)) => Found(finding).fmt(f),
            Reply::State(None) => f.write_str("none"),
            Reply::Figure(Err(fault)) => Refusal::Agenda(fault).fmt(f),
            Reply::Standing(count) => write!(f, "{count}"),
            Reply::Figure(Ok(Some(number)))
            | Reply::Total(Some(number))
            | Reply::Asked(Some(number)) => { write!(f, "{number}") }
            Reply::Figure(Ok(None)) | Reply::Total(None) | Reply::Asked(None) => {
                f.write_str("not kept")
            }
        }
    }
}

// What stands under a reference.
#[derive(Clone, Copy)]
struct Found(Finding);

impl fmt::Display for Found {
    fn fmt<W: fmt::Write>(&self, f: &mut fmt::Formatter<W>) -> fmt::Result {
        let (state, asked) = match self.0.state {
            State::Lodged { asked } => ("lodged", asked),
            State::Accepted { asked } => ("accepted", asked),
        };
        write!(f, "{state}, holding {}", self.0.holding)?;
        if asked {
            f.write_str(", cancellation asked")?;
        }
        Ok(())
    }
}
