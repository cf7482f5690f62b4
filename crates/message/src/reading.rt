// Reading a message.
ghost use Rattle.std.specs.Prelude.{◌≡◌, length};
ghost use Rattle.std.specs.Option.{option_map};
ghost use Rattle.format.specs.Texts.{and_then};
ghost use Rattle.sheets.specs.Standards.{sheet_of};
ghost use Rattle.message.specs.Said.{said_by};
ghost use Rattle.message.specs.Messages.{said_from, MessageRead, table_left};

use crate::message::Message;
use crate::values::ReadText;
use reader::faults::ReadingFault;
use reader::reading::read;
use reader::table::Entry;
use sheets::standard::StandardSheet;

// What the text says as the message of this number.
fn decode(number: u16, read: ReadText<'_>) -> Option<Message>
    ensures { option_map said_by result ≡ and_then (sheet_of number) (λ s. said_from s read.entry.text.now read.entry.entries.now) }
{
    match StandardSheet::try_from(number).ok()? {
        StandardSheet::Mt565 => Some(Message::Instructs(read.instruction()?)),
        StandardSheet::Mt567 => Some(Message::Reports(read.status()?)),
    }
}

// Reads the text as the message of this number, 565 or 567, and answers what it says. The field table is filled as by `read`; refused, it
// is as found. A text that is read always says something: the sheet asks for every part, and for the format of each.
pub fn read_message(number: u16, text: &[u8], table: &mut [Entry]) -> Result<Message, ReadingFault>
    ensures outcome { MessageRead number text.now (length table.old) result }
    ensures entries { table.new ≡ table_left number text.now table.old }
{
    let count = read(number, text, table)?;
    let entries = &table[..count];
    Ok(decode(number, ReadText { text, entries }).unwrap())
}
