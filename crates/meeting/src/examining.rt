// Examining a message by itself: is it the meeting's, does it say what its function asks for, are its votes good?
ghost use Rattle.std.specs.Prelude.{◌≡◌, ℕ, ◌&&◌, Some, None, MatchResult};
ghost use Rattle.std.specs.Option.{option_map};
ghost use Rattle.std.specs.Str.{bytes_eq};
ghost use Rattle.register.specs.Spelling.{spelling};
ghost use Rattle.message.specs.Texts.{text_of};
ghost use Rattle.message.specs.Instructions.{given_votes, rights_of};
ghost use Rattle.message.specs.Said.{said_by, said_instruction, said_status};
ghost use Rattle.meeting.specs.Messages.{form as formed, purposed, purpose_of};
ghost use Rattle.agenda.specs.Votes.{votes_of};
ghost use Rattle.agenda.specs.Casting.{bad_vote, cast_votes};
ghost use Rattle.book.specs.Orders.{ordered};
ghost use Rattle.book.specs.declared.faults.BookFault.TheVariants.{Vote as of_vote};
ghost use Rattle.message.specs.Said.Said.{instructs, reports};
ghost use Rattle.meeting.specs.Notices.{notice_meant};
ghost use Rattle.meeting.specs.Examining.{meant_form, purpose_meant, Examines};

use crate::notice::Notice;
use agenda::casting::cast;
use agenda::sums::unbalanced;
use agenda::votes::Votes;
use book::faults::BookFault;
use book::order::{Claim, Order};
use book::record::Lodging;
use message::instruction::{Function, Instruction, Rights};
use message::message::Message;
use message::status::Status;
use register::reference::Reference;

// What an instruction is for.
#[derive(Clone, Copy)]
pub enum Purpose {
    Lodging,
    Replacement(Reference),
    Cancellation(Reference),
}

// What an instruction is for, if it says what that asks for: a new one has a vote; a cancellation names the instruction that it is about, and
// has no vote.
fn purpose_of(function: Function, previous: Option<Reference>, count: usize) -> Option<Purpose>
    ensures { option_map purpose_meant result ≡ purpose_of function (option_map spelling previous) count }
{
    match (function, previous) {
        (Function::New, None) if count > 0 => Some(Purpose::Lodging),
        (Function::New, Some(previous)) if count > 0 => Some(Purpose::Replacement(previous)),
        (Function::Cancel, Some(previous)) if count == 0 => Some(Purpose::Cancellation(previous)),
        _ => None,
    }
}

// The rights identifier of an instruction and its purpose, where it says what that asks for.
fn form(instruction: &Instruction) -> Option<(Rights, Purpose)>
    ensures { option_map meant_form result ≡ formed (said_instruction instruction.now) }
{
    if instruction.quantity != instruction.holding {
        return None;
    }
    let purpose = purpose_of(
        instruction.function,
        instruction.previous,
        instruction.votes.count,
    );
    instruction.rights.zip(purpose)
}

// What an instruction orders that says what its purpose asks for.
fn order_for(instruction: &Instruction, rights: Rights, purpose: Purpose, votes: Votes) -> Order
    ensures { votes_of votes ≡ cast_votes (given_votes instruction.now.votes) → ordered result ≡ purposed (said_instruction instruction.now) (rights_of rights) (purpose_meant purpose) }
{
    let lodging = Lodging {
        reference: instruction.reference,
        rights,
        account: instruction.account,
        option: instruction.option,
        holding: instruction.holding,
        votes,
    };
    match purpose {
        Purpose::Lodging => Order::Lodge(lodging),
        Purpose::Replacement(previous) => Order::Replace(lodging, previous),
        Purpose::Cancellation(previous) => {
            Order::Cancel(
                previous,
                Claim {
                    rights: lodging.rights,
                    account: lodging.account,
                    option: lodging.option,
                    holding: lodging.holding,
                },
            )
        }
    }
}

impl Notice {
    // Is the event the meeting's?
    fn is_event(&self, event: &Reference) -> bool
        ensures { result ≡ bytes_eq (spelling event.now) (spelling self.now.event) }
    {
        *event == self.event
    }

    // Are the event and the ISIN the meeting's?
    fn is_about(&self, instruction: &Instruction) -> bool
        ensures { result ≡ (bytes_eq (spelling instruction.now.event) (spelling self.now.event) && bytes_eq (text_of instruction.now.isin) (text_of self.now.isin)) }
    {
        self.is_event(&instruction.event) && instruction.isin == self.isin
    }

    // What the votes of an instruction cast; or the first that is not good.
    fn cast_by(&self, instruction: &Instruction) -> Result<Votes, BookFault>
        ensures { MatchResult result (λ v. (bad_vote self.now.agenda.questions (given_votes instruction.now.votes) instruction.now.votes.count ≡ None) × (votes_of v ≡ cast_votes (given_votes instruction.now.votes))) (λ f. (k : ℕ) × (bad_vote self.now.agenda.questions (given_votes instruction.now.votes) instruction.now.votes.count ≡ Some k) × (f ≡ of_vote k)) }
    {
        cast(&self.agenda, &instruction.votes).map_err(BookFault::Vote)
    }

    // What an instruction orders; or why it is refused by itself.
    fn examine_instruction(&self, instruction: &Instruction) -> Result<Order, BookFault>
        ensures { Examines (notice_meant self.now) (instructs (said_instruction instruction.now)) result }
    {
        if !self.is_about(instruction) {
            return Err(BookFault::Event);
        }
        let (rights, purpose) = form(instruction).ok_or(BookFault::Content)?;
        let votes = self.cast_by(instruction)?;
        if let Some(question) = unbalanced(&self.agenda, instruction.holding, &votes) {
            return Err(BookFault::Sum(question));
        }
        Ok(order_for(instruction, rights, purpose, votes))
    }

    // What a status orders; or why it is refused by itself.
    fn examine_status(&self, status: &Status) -> Result<Order, BookFault>
        ensures { Examines (notice_meant self.now) (reports (said_status status.now)) result }
    {
        if !self.is_event(&status.event) {
            return Err(BookFault::Event);
        }
        if status.process != status.function || !status.agree {
            return Err(BookFault::Content);
        }
        Ok(Order::Report(status.related, status.function, status.code))
    }

    // Examines a message by itself: what it orders, or the first question about it that is answered no.
    pub(crate) fn examine(&self, message: &Message) -> Result<Order, BookFault>
        ensures { Examines (notice_meant self.now) (said_by message.now) result }
    {
        match message {
            Message::Instructs(instruction) => self.examine_instruction(instruction),
            Message::Reports(status) => self.examine_status(status),
        }
    }
}
