// What the text of an instruction says, by its field table.
ghost use Rattle.std.specs.Prelude.{◌≡◌, Some as Given, None as Nothing, MatchOption};
ghost use Rattle.std.specs.Option.{option_map};
ghost use Rattle.register.specs.Spelling.{spelling};
ghost use Rattle.message.specs.Texts.{text_of};
ghost use Rattle.message.specs.Instructions.{rights_of};
ghost use Rattle.message.specs.Instructing.{function_of, function_in, previous_of, previous_in, isin_of, isin_in, rights_of_value, rights_of_entry, rights_in, instruction_in};
ghost use Rattle.message.specs.Said.{said_instruction};

use crate::instruction::{Function, Instruction, Rights};
use crate::rows;
use crate::text::ShortText;
use crate::values::{ReadText, as_reference, as_text, content};
use format::identifiers::identifier;
use reader::table::Entry;
use register::reference::Reference;

// What the instruction is for, by the value of 23G.
fn function_of(value: &[u8]) -> Option<Function>
    ensures { result ≡ function_of value.now }
{
    match value {
        b"NEWM" => Some(Function::New),
        b"CANC" => Some(Function::Cancel),
        _ => None,
    }
}

// The reference of PREV, where there is such a field.
// Stays a match: std turns no Option of an Option inside out.
fn previous_of(value: Option<&[u8]>) -> Option<Option<Reference>>
    ensures { option_map (option_map spelling) result ≡ previous_of (option_map (λ x. x.now) value.entry) }
{
    match value {
        Some(value) => Some(Some(as_reference(content(rows::PREV.qualifier, value)?)?)),
        None => Some(None),
    }
}

// The twelve characters of the ISIN, by the value of 35B.
fn isin_of(value: &[u8]) -> Option<ShortText>
    ensures { option_map text_of result ≡ isin_of value.now }
{
    as_text(value.strip_prefix(b"ISIN ")?)
}

// The rights identifier of a value of 95S: its country and its text, where its code is RHID.
fn rights_of(value: &[u8]) -> Option<Rights>
    ensures { option_map rights_of result ≡ rights_of_value value.now }
{
    let parts = identifier(value)?;
    if parts.code == *b"RHID" {
        let rest = value.get(parts.start..).unwrap_or(&[]);
        let identifier = as_text(rest).unwrap();
        Some(Rights {
            country: parts.country,
            identifier,
        })
    } else {
        None
    }
}

// The rights identifier that was found first, where no second was.
// Stays a match: it is the second that refuses, and `then_some` would put it behind a test.
fn alone(rights: Rights, second: Option<Rights>) -> Option<Rights>
    ensures { MatchOption second (result ≡ Given rights) (λ _. result ≡ Nothing) }
{
    match second {
        Some(_) => None,
        None => Some(rights),
    }
}

impl ReadText<'_> {
    fn function(self) -> Option<Function>
        ensures { result ≡ function_in self.entry.text.now self.entry.entries.now }
    {
        function_of(self.first_value(rows::FUNCTION)?)
    }

    fn previous(self) -> Option<Option<Reference>>
        ensures { option_map (option_map spelling) result ≡ previous_in self.entry.text.now self.entry.entries.now }
    {
        previous_of(self.first_value(rows::PREV.row))
    }

    fn isin(self) -> Option<ShortText>
        ensures { option_map text_of result ≡ isin_in self.entry.text.now self.entry.entries.now }
    {
        isin_of(self.first_value(rows::ISIN)?)
    }

    // The rights identifier of an entry, if it is of 95S and has one.
    fn rights_at(self, entry: Entry) -> Option<Rights>
        ensures { option_map rights_of result ≡ rights_of_entry self.entry.text.now entry }
    {
        if entry.row == rows::ALTE {
            rights_of(self.value_of(entry))
        } else {
            None
        }
    }

    // The rights identifier, where just one holder is named by one.
    fn rights(self) -> Option<Rights>
        ensures { option_map rights_of result ≡ rights_in self.entry.text.now self.entry.entries.now }
    {
        let mut all = self
            .entries
            .iter()
            .filter_map(|entry| self.rights_at(*entry));
        let rights = all.next()?;
        alone(rights, all.next())
    }

    // What the text says, part by part.
    pub(crate) fn instruction(self) -> Option<Instruction>
        ensures { option_map said_instruction result ≡ instruction_in self.entry.text.now self.entry.entries.now }
    {
        Some(Instruction {
            event: self.reference(rows::CORP)?,
            reference: self.reference(rows::SEME)?,
            function: self.function()?,
            previous: self.previous()?,
            isin: self.isin()?,
            account: self.short_text(rows::SAFE)?,
            rights: self.rights(),
            holding: self.quantity(rows::OWND)?,
            option: self.short_text(rows::CAON)?,
            quantity: self.quantity(rows::QINS)?,
            votes: self.votes()?,
        })
    }
}
