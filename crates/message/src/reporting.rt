// What the text of a status says, by its field table.
ghost use Rattle.std.specs.Prelude.{◌≡◌};
ghost use Rattle.std.specs.Option.{option_map};
ghost use Rattle.message.specs.Said.{said_status};
ghost use Rattle.message.specs.Reporting.{function_of, function_in, process_of, process_in, held_process, code_of, entry_under, agree_in, status_in};

use crate::rows;
use crate::status::{Process, Status, StatusCode};
use crate::values::{ReadText, content};
use fields::headers::Qualifier;
use fields::walk::part;
use reader::table::Entry;

const IPRC: Qualifier = Qualifier(b'I', b'P', b'R', b'C');

const CPRC: Qualifier = Qualifier(b'C', b'P', b'R', b'C');

// What the status is of, by the value of 23G.
fn function_of(value: &[u8]) -> Option<Process>
    ensures { result ≡ function_of value.now }
{
    match value {
        b"INST" => Some(Process::Instruction),
        b"CAST" => Some(Process::Cancellation),
        _ => None,
    }
}

// The process, by the qualifier of the value of 25D, and the code that stands behind it.
fn process_of(value: &[u8]) -> Option<(Process, &[u8])>
    ensures { option_map held_process result ≡ process_of value.now }
{
    if let Some(code) = content(IPRC, value) {
        return Some((Process::Instruction, code));
    }
    let code = content(CPRC, value)?;
    Some((Process::Cancellation, code))
}

// What the code says.
fn code_of(code: &[u8]) -> Option<StatusCode>
    ensures { result ≡ code_of code.now }
{
    match code {
        b"CAND" => Some(StatusCode::Cancelled),
        b"CANP" => Some(StatusCode::CancellationPending),
        b"DFLA" => Some(StatusCode::DefaultAction),
        b"PACK" => Some(StatusCode::Accepted),
        b"PEND" => Some(StatusCode::Pending),
        b"REJT" => Some(StatusCode::Rejected),
        b"STIN" => Some(StatusCode::StandingInstruction),
        _ => None,
    }
}

impl<'a> ReadText<'a> {
    fn status_function(self) -> Option<Process>
        ensures { result ≡ function_in self.entry.text.now self.entry.entries.now }
    {
        function_of(self.first_value(rows::FUNCTION)?)
    }

    fn process(self) -> Option<(Process, &'a [u8])>
        ensures { option_map held_process result ≡ process_in self.entry.text.now self.entry.entries.now }
    {
        process_of(self.first_value(rows::STATUS)?)
    }

    // Has the entry, if it is of 24B, the code for its qualifier, the first four characters of the value?
    fn agrees_at(self, entry: Entry, code: &[u8]) -> bool
        ensures { result ≡ entry_under self.entry.text.now code.now entry }
    {
        entry.row != rows::REASON || part(self.value_of(entry), 0, 4) == code
    }

    // Is the code the qualifier of each reason?
    fn agrees(self, code: &[u8]) -> bool
        ensures { result ≡ agree_in self.entry.text.now self.entry.entries.now code.now }
    {
        self.entries
            .iter()
            .all(|entry| self.agrees_at(*entry, code))
    }

    // What the text says, part by part.
    pub(crate) fn status(self) -> Option<Status>
        ensures { option_map said_status result ≡ status_in self.entry.text.now self.entry.entries.now }
    {
        let event = self.reference(rows::CORP)?;
        let function = self.status_function()?;
        let related = self.reference(rows::RELA)?;
        let (process, code) = self.process()?;
        Some(Status {
            event,
            function,
            related,
            process,
            code: code_of(code)?,
            agree: self.agrees(code),
        })
    }
}
