// The agenda: a table with a place for each question.
ghost use Rattle.std.specs.Prelude.{◌≡◌};
ghost use Rattle.agenda.specs.Agendas.{asked, place_of, has_cell, verdict as fill_verdict, filled as fill_leaves, blank};

use crate::faults::AgendaFault;
use crate::question::{MOST_QUESTIONS, Question};

// The question of number n stands at place n - 1.
#[derive(Clone, Copy)]
pub struct Agenda {
    questions: [Option<Question>; MOST_QUESTIONS],
}

impl Agenda {
    // An agenda with no question.
    pub fn new() -> Agenda
        ensures { result.questions ≡ blank }
    {
        Agenda {
            questions: [None; MOST_QUESTIONS],
        }
    }

    // The question of this number, if it is on the agenda.
    pub fn question(&self, number: u8) -> Option<Question>
        ensures { result ≡ asked self.now.questions number }
    {
        *self.questions.get(place_of(number)?)?
    }

    // Is the cell on the agenda?
    pub fn has_cell(&self, question: u8, cell: u8) -> bool
        ensures { result ≡ has_cell self.now.questions question cell }
    {
        self.question(question)
            .is_some_and(|question| question.has_cell(cell))
    }

    // Fills in a question: one that an agenda can have, and whose number is new. Refused, it leaves the agenda as found.
    pub fn fill(&mut self, question: Question) -> Result<(), AgendaFault>
        ensures answer { result ≡ fill_verdict self.old.questions question }
        ensures after { self.new.questions ≡ fill_leaves self.old.questions question result }
    {
        if !question.is_fit() {
            return Err(AgendaFault::Question);
        }
        if self.question(question.number).is_some() {
            return Err(AgendaFault::Repeated);
        }
        self.questions[usize::from(question.number) - 1] = Some(question);
        Ok(())
    }
}

impl Default for Agenda {
    ghost is_default = { λ a. a.questions ≡ blank };

    fn default() -> Agenda {
        Agenda::new()
    }
}

// Where the question of a number stands, if the agenda is long enough; 0 has no place.
fn place_of(number: u8) -> Option<usize>
    ensures { result ≡ place_of number }
{
    usize::from(number).checked_sub(1)
}
