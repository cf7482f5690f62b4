// The questions put to an order, over what stands.
ghost use Rattle.std.specs.Prelude.{◌≡◌, min, length, Some, None};
ghost use Rattle.std.specs.Option.{option_map};
ghost use Rattle.register.specs.Spelling.{spelling};
ghost use Rattle.message.specs.Instructions.{rights_of};
ghost use Rattle.book.specs.Book.{instruction_of, terms_of};
ghost use Rattle.book.specs.Orders.{claimed, ordered};
ghost use Rattle.book.specs.Verdicts.{agrees as claim_holds, may_report, lodging_fault, replacement_fault, cancellation_fault, report_fault};
ghost use Rattle.book.specs.Questions.{refusal};
ghost use Rattle.book.specs.Desk.{Led, InOrder, Judged};
ghost use Rattle.book.specs.Judging.{JudgesLodging, JudgesReplacement, JudgesCancellation, JudgesReport, Judges};

use crate::faults::BookFault;
use crate::moves::{count_standing, is_shared, look_up, standing_in};
use crate::order::{Claim, Order};
use crate::record::{Lodging, Record, Standing};
use message::status::Process;
use register::interface::Register;
use register::reference::Reference;

// May a new instruction that replaces none be lodged?
fn check_lodging(stands: bool, shared: bool, standing: usize, room: usize) -> Result<(), BookFault>
    ensures { refusal result ≡ lodging_fault stands shared standing room }
{
    if stands {
        return Err(BookFault::AlreadyStanding);
    }
    if shared {
        return Err(BookFault::RightsTaken);
    }
    if standing >= room {
        return Err(BookFault::Full);
    }
    Ok(())
}

// May a new instruction replace another, which stands or not?
fn check_replacement(
    known: bool,
    replaced: Option<&Standing>,
    lodging: &Lodging,
) -> Result<(), BookFault>
    ensures { refusal result ≡ replacement_fault known (option_map (λ x. instruction_of x.now) replaced.entry) (rights_of lodging.now.rights) }
{
    if known {
        return Err(BookFault::AlreadyStanding);
    }
    let replaced = replaced.ok_or(BookFault::NotStanding)?;
    if replaced.state.is_asked() {
        return Err(BookFault::CancellationAsked);
    }
    if replaced.lodging.rights != lodging.rights {
        return Err(BookFault::Differs);
    }
    Ok(())
}

// Has the instruction the rights identifier, account, option and holding that a cancellation claims?
fn claim_holds(lodging: &Lodging, claim: &Claim) -> bool
    ensures { result ≡ claim_holds (terms_of lodging.now) (claimed claim.now) }
{
    lodging.rights == claim.rights
        && lodging.account == claim.account
        && lodging.option == claim.option
        && lodging.holding == claim.holding
}

// May the cancellation of an instruction, which stands or not, be asked?
fn check_cancellation(previous: Option<&Standing>, claim: &Claim) -> Result<(), BookFault>
    ensures { refusal result ≡ cancellation_fault (option_map (λ x. instruction_of x.now) previous.entry) (claimed claim.now) }
{
    let previous = previous.ok_or(BookFault::NotStanding)?;
    if previous.state.is_asked() {
        return Err(BookFault::CancellationAsked);
    }
    if !claim_holds(&previous.lodging, claim) {
        return Err(BookFault::Differs);
    }
    Ok(())
}

// A report on a cancellation may only be about an instruction whose cancellation is asked.
fn may_report(process: Process, asked: bool) -> bool
    ensures { result ≡ may_report process asked }
{
    match process {
        Process::Instruction => true,
        Process::Cancellation => asked,
    }
}

// May a report be about an instruction, which stands or not?
fn check_report(related: Option<&Standing>, process: Process) -> Result<(), BookFault>
    ensures { refusal result ≡ report_fault (option_map (λ x. instruction_of x.now) related.entry) process }
{
    let related = related.ok_or(BookFault::NotStanding)?;
    if !may_report(process, related.state.is_asked()) {
        return Err(BookFault::CancellationNotAsked);
    }
    Ok(())
}

// How many can stand: as many as there are records, and as the register can hold.
fn room_for<R: Register>(register: &R, records: &[Record]) -> usize
    ensures { result ≡ min (length records.now) (R.Register.room register.now) }
{
    records.len().min(register.capacity())
}

// Stays beside the desk: judging asks the register and reads the records, and by these types it changes neither the records nor the tally.
fn judge_lodging<R: Register>(
    register: &mut R,
    records: &[Record],
    lodging: &Lodging,
) -> Result<Option<usize>, BookFault>
    ensures { JudgesLodging R.Register register.old records.now (terms_of lodging.now) result register.new }
{
    let number = look_up(register, &lodging.reference);
    let stands = standing_in(records, number).is_some();
    let shared = is_shared(records, &lodging.rights);
    let standing = count_standing(records);
    let room = room_for(register, records);
    check_lodging(stands, shared, standing, room)?;
    Ok(None)
}

fn judge_replacement<R: Register>(
    register: &mut R,
    records: &[Record],
    lodging: &Lodging,
    previous: &Reference,
) -> Result<Option<usize>, BookFault>
    ensures { JudgesReplacement R.Register register.old records.now (terms_of lodging.now) (spelling previous.now) result register.new }
{
    let number = look_up(register, &lodging.reference);
    let stands = standing_in(records, number).is_some();
    let replaced = look_up(register, previous);
    let standing = standing_in(records, replaced);
    check_replacement(stands, standing, lodging)?;
    Ok(replaced)
}

fn judge_cancellation<R: Register>(
    register: &mut R,
    records: &[Record],
    previous: &Reference,
    claim: &Claim,
) -> Result<Option<usize>, BookFault>
    ensures { JudgesCancellation R.Register register.old records.now (spelling previous.now) (claimed claim.now) result register.new }
{
    let number = look_up(register, previous);
    let standing = standing_in(records, number);
    check_cancellation(standing, claim)?;
    Ok(number)
}

fn judge_report<R: Register>(
    register: &mut R,
    records: &[Record],
    related: &Reference,
    process: Process,
) -> Result<Option<usize>, BookFault>
    ensures { JudgesReport R.Register register.old records.now (spelling related.now) process result register.new }
{
    let number = look_up(register, related);
    let standing = standing_in(records, number);
    check_report(standing, process)?;
    Ok(number)
}

// Puts the questions to an order: the first that is answered no refuses it. Else answers the record of the instruction that the order names,
// if it names one.
fn judge_by_kind<R: Register>(
    register: &mut R,
    records: &[Record],
    order: &Order,
) -> Result<Option<usize>, BookFault>
    ensures { Judges R.Register register.old records.now (ordered order.now) result register.new }
{
    match order {
        Order::Lodge(lodging) => judge_lodging(register, records, lodging),
        Order::Replace(lodging, previous) => {
            judge_replacement(register, records, lodging, previous)
        }
        Order::Cancel(previous, claim) => judge_cancellation(register, records, previous, claim),
        Order::Report(related, process, _) => judge_report(register, records, related, *process),
    }
}

// Puts the questions to an order. The first that is answered no refuses it; else the answer is the record of the instruction that the order
// names, if it names one. No pair of the register changes.
pub fn judge<R: Register>(
    register: &mut R,
    records: &[Record],
    order: &Order,
) -> Result<Option<usize>, BookFault>
    ensures led { Led R.Register register.old register.new }
    ensures judged { InOrder R.Register register.old records.now → Judged R.Register register.old records.now (ordered order.now) result register.new }
{
    judge_by_kind(register, records, order)
}
