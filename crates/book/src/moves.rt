// The moves of the book: finding a record, filling one, emptying one.
ghost use Rattle.std.specs.Prelude.{◌≡◌, length, is_none, position};
ghost use Rattle.std.specs.List.{slice_get};
ghost use Rattle.std.specs.Option.{option_map};
ghost use Rattle.register.specs.Sets.{Found};
ghost use Rattle.register.specs.Spelling.{spelling};
ghost use Rattle.register.specs.declared.call.Answer.TheVariants.{Number};
ghost use Rattle.register.specs.declared.call.Call.TheVariants.{Find};
ghost use Rattle.tally.specs.Scale.{plus_all};
ghost use Rattle.message.specs.Instructions.{rights_of};
ghost use Rattle.book.specs.Book.{held, in_record, instruction_of, instructions, meaning, meanings, terms_of};
ghost use Rattle.book.specs.Moves.{Ends, Places};
ghost use Rattle.book.specs.Verdicts.{has_rights, shared_in};

use crate::desk::Desk;
use crate::record::{Lodging, Record, Standing, State};
use message::instruction::Rights;
use register::interface::Register;
use register::reference::Reference;
use tally::interface::Tally;
use tally::lists::{add_all, take_back_all};

// The instruction that stands in the record of this number, if any.
fn standing_at(records: &[Record], n: usize) -> Option<&Standing>
    ensures { option_map (λ x. instruction_of x.now) result ≡ held (slice_get (meanings records.now) n) }
{
    records.get(n)?.as_ref()
}

// The instruction that stands in the record that a register named, if it named one.
pub fn standing_in(records: &[Record], number: Option<usize>) -> Option<&Standing>
    ensures { option_map (λ x. instruction_of x.now) result ≡ in_record (meanings records.now) number }
{
    standing_at(records, number?)
}

// Does an instruction with the rights identifier stand in the record?
fn has_rights(kept: &Record, rights: &Rights) -> bool
    ensures { result ≡ has_rights (meaning kept.now) (rights_of rights.now) }
{
    kept.as_ref()
        .is_some_and(|standing| standing.lodging.rights == *rights)
}

// Does an instruction with the rights identifier stand in some record?
pub fn is_shared(records: &[Record], rights: &Rights) -> bool
    ensures { result ≡ shared_in (meanings records.now) (rights_of rights.now) }
{
    records.iter().any(|record| has_rights(record, rights))
}

// How many instructions stand.
#[tactic(auto, using(crate::proofs::Meant::count_meant))]
pub fn count_standing(records: &[Record]) -> usize
    ensures { result ≡ length (instructions (meanings records.now)) }
{
    records.iter().filter(|record| record.is_some()).count()
}

// Asks the register for the number of a reference's record.
pub fn look_up<R: Register>(register: &mut R, reference: &Reference) -> Option<usize>
    ensures fixed { R.Register.room register.new ≡ R.Register.room register.old }
    ensures keeps { R.Register.ordered register.old → R.Register.ordered register.new }
    ensures finds { R.Register.ordered register.old → Found (R.Register.pairs register.old) (R.Register.pairs register.new) (spelling reference.now) result }
    ensures ruled { R.Register.rule register.old (Find reference.now) (Number result) register.new }
{
    register.find(reference)
}

// Adds the votes of an instruction to the tally.
fn count_votes<T: Tally>(tally: &mut T, lodging: &Lodging)
    ensures scale { T.Tally.scale tally.new ≡ T.Tally.scale tally.old }
    ensures value { T.Tally.value tally.new ≡ plus_all (T.Tally.scale tally.old) (T.Tally.value tally.old) (terms_of lodging.now).votes }
{
    add_all(tally, lodging.votes.as_slice());
}

// Takes the votes of an instruction back out of the tally.
fn withdraw_votes<T: Tally>(tally: &mut T, lodging: &Lodging)
    ensures scale { T.Tally.scale tally.new ≡ T.Tally.scale tally.old }
    ensures value { T.Tally.value tally.old ≡ plus_all (T.Tally.scale tally.old) (T.Tally.value tally.new) (terms_of lodging.now).votes }
{
    take_back_all(tally, lodging.votes.as_slice());
}

impl<R, T> Desk<'_, R, T> {
    // The first empty record.
    pub(crate) fn vacant(&self) -> Option<usize>
        ensures { result ≡ position (λ r. is_none r) self.now.records.now }
    {
        self.records.iter().position(|record| record.is_none())
    }
}

// Stays with an index, here and where orders are carried out: what a slice holds after a write through `get_mut` is not known to a proof.
impl<R: Register, T: Tally> Desk<'_, R, T> {
    // Ends the instruction in a record: its votes leave the tally, its reference the register, and the record is empty.
    pub(crate) fn end(&mut self, n: usize)
        ensures { Ends R.Register T.Tally self.old n self.new }
    {
        if n < self.records.len() {
            if let Some(standing) = self.records[n].take() {
                withdraw_votes(self.tally, &standing.lodging);
                self.register.strike(&standing.lodging.reference);
            }
        }
    }

    // Places an instruction into an empty record: its reference joins the register, and its votes the tally.
    pub(crate) fn place(&mut self, n: usize, lodging: &Lodging)
        ensures { Places R.Register T.Tally self.old n (terms_of lodging.now) self.new }
    {
        if n >= self.records.len() {
            return;
        }
        if self.register.enter(lodging.reference, n).is_ok() {
            count_votes(self.tally, lodging);
            self.records[n] = Some(Standing {
                lodging: *lodging,
                state: State::Lodged { asked: false },
            });
        }
    }
}
