// An opened meeting, which takes messages until it is closed, and answers questions.
ghost use Rattle.std.specs.Prelude.{◌≡◌, length};
ghost use Rattle.book.specs.Book.{instructions, meanings};
ghost use Rattle.book.specs.Desk.{Led};
ghost use Rattle.book.specs.Findings.{Tells};
ghost use Rattle.meeting.specs.Notices.{convened};
ghost use Rattle.meeting.specs.Figures.{figured};

use crate::notice::Notice;
use agenda::agenda::Agenda;
use agenda::faults::AgendaFault;
use book::finding::{Finding, count, find};
use book::record::Record;
use register::interface::Register;
use std::marker::PhantomData;
use tally::interface::Tally;

// The states of a meeting: it takes messages, until it is closed.
pub struct Taking;

pub struct Closed;

// An opened meeting in one of these states. In each it answers questions.
#[derive(Drop)]
pub struct Meeting<S> {
    pub(crate) notice: Notice,
    pub(crate) state: PhantomData<S>,
}

pub type ClosedMeeting = Meeting<Closed>;

// The figure that the tally tells of a cell of the agenda.
fn figure_on<T: Tally>(
    agenda: &Agenda,
    tally: &T,
    question: u8,
    cell: u8,
) -> Result<Option<u64>, AgendaFault>
    ensures { result ≡ figured agenda.now.questions question cell (T.Tally.figure_in (T.Tally.value tally.now) question cell) }
{
    if !agenda.has_cell(question, cell) {
        return Err(AgendaFault::Cell);
    }
    Ok(tally.tell_figure(question, cell))
}

// The control total that the tally tells.
fn total_of<T: Tally>(tally: &T) -> Option<u64>
    ensures { result ≡ T.Tally.total_in (T.Tally.value tally.now) }
{
    tally.tell_total()
}

impl<S> Meeting<S> {
    // What stands under a reference, if anything: lodged or accepted, whether cancellation is asked, and the holding.
    pub fn state<R: Register>(
        &self,
        register: &mut R,
        records: &[Record],
        reference: &[u8],
    ) -> Option<Finding>
        ensures led { Led R.Register register.old register.new }
        ensures tells { R.Register.ordered register.old → Tells R.Register register.old records.now reference.now result register.new }
    {
        find(register, records, reference)
    }

    // The figure of a cell of a question, if the tally keeps figures. Refused where the cell is not on the agenda.
    pub fn figure<T: Tally>(
        &self,
        tally: &T,
        question: u8,
        cell: u8,
    ) -> Result<Option<u64>, AgendaFault>
        ensures { result ≡ figured (convened self.now).agenda question cell (T.Tally.figure_in (T.Tally.value tally.now) question cell) }
    {
        figure_on(&self.notice.agenda, tally, question, cell)
    }

    // The control total, if the tally keeps one.
    pub fn total<T: Tally>(&self, tally: &T) -> Option<u64>
        ensures { result ≡ T.Tally.total_in (T.Tally.value tally.now) }
    {
        total_of(tally)
    }

    // How many instructions stand.
    pub fn standing(&self, records: &[Record]) -> usize
        ensures { result ≡ length (instructions (meanings records.now)) }
    {
        count(records)
    }
}

impl Meeting<Taking> {
    // Closes the meeting: it takes no message any more.
    pub fn close(self) -> ClosedMeeting
        ensures { convened result ≡ convened self }
    {
        Meeting {
            notice: self.notice,
            state: PhantomData,
        }
    }
}
