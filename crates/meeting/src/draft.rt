// The draft of a meeting: its name, and its agenda as it grows.
ghost use Rattle.std.specs.Prelude.{◌≡◌, ℕ, true, false, List, Some, None, Option as Maybe, MatchResult};
ghost use Rattle.std.specs.List.{slice_get};
ghost use Rattle.agenda.specs.Agendas.{blank, verdict as fill_verdict, filled as fill_leaves};
ghost use Rattle.agenda.specs.declared.faults.AgendaFault.TheVariants.{Name};
ghost use Rattle.book.specs.Book.{Instruction, meanings};
ghost use Rattle.book.specs.Desk.{Led, situation, told};
ghost use Rattle.meeting.specs.Notices.{drafted, convened, noticed, is_name, IsinCode};
ghost use Rattle.meeting.specs.Opening.{Opened};

use crate::meeting::{Meeting, Taking};
use crate::notice::Notice;
use agenda::agenda::Agenda;
use agenda::faults::AgendaFault;
use agenda::question::Question;
use book::record::Record;
use format::simple::is_isin_code;
use message::text::ShortText;
use register::interface::Register;
use register::reference::Reference;
use std::marker::PhantomData;
use tally::interface::Tally;

// A meeting that is not opened yet.
#[derive(Drop)]
pub struct Draft {
    pub(crate) notice: Notice,
}

// The twelve characters of an ISIN.
fn isin_code(isin: &[u8]) -> Option<ShortText>
    ensures { IsinCode isin.now result }
{
    // Stays a test: what a filter is given would have to be kept first, and read afterwards.
    if is_isin_code(isin) {
        ShortText::copied(0, isin).ok()
    } else {
        None
    }
}

// Clears the register, from any state.
fn clear_register<R: Register>(register: &mut R)
    ensures led { Led R.Register register.old register.new }
    ensures ordered { R.Register.ordered register.new }
    ensures unnamed { (q : List ℕ) → (told R.Register register.new).find q ≡ None }
    ensures none { (told R.Register register.new).size ≡ 0 }
{
    register.clear();
}

// Empties every record.
fn empty(records: &mut [Record])
    ensures { (n : ℕ) (o : Maybe Instruction) → slice_get (meanings records.new) n ≡ Some o → o ≡ None }
{
    records.fill(None);
}

impl Draft {
    // A draft with no question, named by the event's reference and the ISIN. Refused where they are no name.
    pub fn new(event: &[u8], isin: &[u8]) -> Result<Draft, AgendaFault>
        ensures { MatchResult result (λ d. (is_name event.now isin.now ≡ true) × (drafted d ≡ noticed event.now isin.now blank)) (λ f. (is_name event.now isin.now ≡ false) × (f ≡ Name)) }
    {
        let event = Reference::new(event).ok_or(AgendaFault::Name)?;
        let isin = isin_code(isin).ok_or(AgendaFault::Name)?;
        let agenda = Agenda::new();
        Ok(Draft {
            notice: Notice {
                event,
                isin,
                agenda,
            },
        })
    }

    // Fills in a question: one that an agenda can have, and whose number is new. Refused, it leaves the draft as found.
    pub fn add(&mut self, question: Question) -> Result<(), AgendaFault>
        ensures answer { result ≡ fill_verdict (drafted self.old).agenda question }
        ensures after { drafted self.new ≡ noticed (drafted self.old).event (drafted self.old).isin (fill_leaves (drafted self.old).agenda question result) }
    {
        self.notice.agenda.fill(question)
    }

    // Opens the meeting: clears the register and the tally and empties all records, whatever they held.
    pub fn open<R: Register, T: Tally>(
        self,
        register: &mut R,
        tally: &mut T,
        records: &mut [Record],
    ) -> Meeting<Taking>
        ensures notice { convened result ≡ drafted self }
        ensures led { Led R.Register register.old register.new }
        ensures scale { T.Tally.scale tally.new ≡ T.Tally.scale tally.old }
        ensures ordered { R.Register.ordered register.new }
        ensures opened { Opened (T.Tally.scale tally.old) (situation R.Register T.Tally register.new tally.new records.new) }
    {
        clear_register(register);
        tally.clear();
        empty(records);
        Meeting {
            notice: self.notice,
            state: PhantomData,
        }
    }
}
