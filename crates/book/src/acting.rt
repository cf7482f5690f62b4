// Carrying out an order that no question refused.
ghost use Rattle.std.specs.Prelude.{◌≡◌, ℕ, List, Some, None, Option as Maybe};
ghost use Rattle.std.specs.List.{slice_get};
ghost use Rattle.std.specs.Option.{option_map};
ghost use Rattle.register.specs.Spelling.{spelling};
ghost use Rattle.book.specs.Book.{Instruction, instruction_of, meaning, meanings, terms_of};
ghost use Rattle.book.specs.Orders.{Claimed, asked, ordered};
ghost use Rattle.book.specs.Orders.Ordered.{lodge, cancel, report};
ghost use Rattle.book.specs.Deeds.{deed, deed_of, event_deed};
ghost use Rattle.book.specs.Acting.{Acts, Asks, Restates, restated};
ghost use Rattle.book.specs.States.{event_of, turned};
ghost use Rattle.book.specs.declared.record.State.{State as StateOf};
ghost use Rattle.message.specs.declared.status.Process.{Process as ProcessOf};
ghost use Rattle.message.specs.declared.status.StatusCode.{StatusCode as CodeOf};

use crate::desk::Desk;
use crate::order::Order;
use crate::record::{Lodging, Record, Standing, State};
use crate::status::StatusEvent;
use register::interface::Register;
use register::reference::Reference;
use tally::interface::Tally;

// What a taken message did.
#[derive(Clone, Copy)]
pub enum Taken {
    Lodged(Reference),
    // The first is lodged in place of the second.
    Replaced(Reference, Reference),
    CancellationAsked(Reference),
    Accepted(Reference),
    Rejected(Reference),
    Cancelled(Reference),
    CancellationRefused(Reference),
    Nothing,
}

// What an event does to the instruction with this reference.
fn event_deed(event: StatusEvent, related: Reference) -> Taken
    ensures { deed result ≡ event_deed event (spelling related) }
{
    match event {
        StatusEvent::Acceptance => Taken::Accepted(related),
        StatusEvent::Rejection => Taken::Rejected(related),
        StatusEvent::Cancellation => Taken::Cancelled(related),
        StatusEvent::Refusal => Taken::CancellationRefused(related),
        StatusEvent::Nothing => Taken::Nothing,
    }
}

// What an order does where it is taken.
pub fn taken_by(order: &Order) -> Taken
    ensures { deed result ≡ deed_of (ordered order.now) }
{
    match *order {
        Order::Lodge(lodging) => Taken::Lodged(lodging.reference),
        Order::Replace(lodging, previous) => Taken::Replaced(lodging.reference, previous),
        Order::Cancel(previous, _) => Taken::CancellationAsked(previous),
        Order::Report(related, process, code) => {
            event_deed(StatusEvent::of(process, code), related)
        }
    }
}

// Puts an instruction into another state.
fn restate(standing: &mut Standing, state: State)
    ensures { instruction_of standing.new ≡ restated state (instruction_of standing.old) }
{
    standing.state = state;
}

// Asks the cancellation of the instruction in a record, if one stands there.
fn ask_cancellation(kept: &mut Record)
    ensures { meaning kept.new ≡ option_map asked (meaning kept.old) }
{
    if let Some(standing) = kept {
        standing.state = standing.state.with_cancellation_asked();
    }
}

impl<R: Register, T: Tally> Desk<'_, R, T> {
    fn act_lodging(&mut self, lodging: &Lodging)
        ensures { (number : Maybe ℕ) → Acts R.Register T.Tally self.old (lodge (terms_of lodging.now) None) number self.new }
    {
        if let Some(n) = self.vacant() {
            self.place(n, lodging);
        }
    }

    // The new instruction takes the record that the old one leaves.
    fn act_replacement(&mut self, lodging: &Lodging, number: Option<usize>)
        ensures { (q : List ℕ) → Acts R.Register T.Tally self.old (lodge (terms_of lodging.now) (Some q)) number self.new }
    {
        if let Some(n) = number {
            self.end(n);
            self.place(n, lodging);
        }
    }

    // The cancellation is asked.
    fn act_cancellation(&mut self, number: Option<usize>)
        ensures acts { (q : List ℕ) (c : Claimed) → Acts R.Register T.Tally self.old (cancel q c) number self.new }
        ensures asks { Asks self.old number self.new }
    {
        let Some(n) = number else {
            return;
        };
        if n >= self.records.len() {
            return;
        }
        ask_cancellation(&mut self.records[n]);
    }

    // The state goes on, or the instruction ends.
    fn act_report(&mut self, number: Option<usize>, event: StatusEvent)
        ensures acts { (q : List ℕ) (process : ProcessOf) (code : CodeOf) → event_of process code ≡ event → Acts R.Register T.Tally self.old (report q process code) number self.new }
        ensures turns { (n : ℕ) (i : Instruction) (state : StateOf) → number ≡ Some n → slice_get (meanings self.old.records.now) n ≡ Some (Some i) → turned i.state event ≡ Some state → Restates self.old n state self.new }
    {
        let Some(n) = number else {
            return;
        };
        if n >= self.records.len() {
            return;
        }
        if let Some(standing) = &mut self.records[n] {
            match standing.state.after(event) {
                Some(state) => restate(standing, state),
                None => self.end(n),
            }
        }
    }

    // Carries out an order that no question refused, where `number` is the record of the instruction that it names.
    pub fn act(&mut self, order: &Order, number: Option<usize>)
        ensures { Acts R.Register T.Tally self.old (ordered order.now) number self.new }
    {
        match order {
            Order::Lodge(lodging) => self.act_lodging(lodging),
            Order::Replace(lodging, _) => self.act_replacement(lodging, number),
            Order::Cancel(_, _) => self.act_cancellation(number),
            Order::Report(_, process, code) => {
                self.act_report(number, StatusEvent::of(*process, *code))
            }
        }
    }
}
