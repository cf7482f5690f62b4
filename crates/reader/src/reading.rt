// Reading a text by a sheet.
ghost use Rattle.std.specs.Prelude.{◌≡◌, length};
ghost use Rattle.sheet.specs.Order.{order_fault};
ghost use Rattle.reader.specs.Values.{value_fault};
ghost use Rattle.reader.specs.Reading.{fault_at, sentence_verdict, read_verdict};
ghost use Rattle.sheets.specs.Standards.{sheet_of};
ghost use Rattle.reader.specs.Laws.{SentenceChecked, Reads};
ghost use Rattle.reader.specs.Numbers.{ReadsNumbered};

use crate::faults::ReadingFault;
use crate::table::{Entry, fill};
use crate::values::value_fault;
use fields::faults::check_text;
use fields::walk::field_count;
use sheet::interface::Sheet;
use sheet::order::order_fault;
use sheets::standard::StandardSheet;

// Is the order of the fields that of a sentence?
fn check_order<S: Sheet>(sheet: &S, text: &[u8]) -> Result<(), ReadingFault>
    ensures { result ≡ fault_at ReadingFault.Order (order_fault (S.rows sheet.now) text.now) (Ok tt) }
{
    match order_fault(sheet, text) {
        Some(start) => Err(ReadingFault::Order(start)),
        None => Ok(()),
    }
}

// Has each value the format of its row?
fn check_values<S: Sheet>(sheet: &S, text: &[u8]) -> Result<(), ReadingFault>
    ensures { result ≡ fault_at ReadingFault.Value (value_fault (S.rows sheet.now) (S.codes sheet.now) text.now) (Ok tt) }
{
    match value_fault(sheet, text) {
        Some(start) => Err(ReadingFault::Value(start)),
        None => Ok(()),
    }
}

// The first of the questions about length, characters, lines, order and values that the text fails. Each takes one pass.
fn first_fault<S: Sheet>(sheet: &S, text: &[u8]) -> Result<(), ReadingFault>
    ensures { result ≡ sentence_verdict (S.rows sheet.now) (S.codes sheet.now) text.now }
{
    check_text(text)?;
    check_order(sheet, text)?;
    check_values(sheet, text)
}

// Is the text a sentence of the sheet? If not, answers the first question that it fails, and where.
pub fn check_sentence<S: Sheet>(sheet: &S, text: &[u8]) -> Result<(), ReadingFault>
    ensures { SentenceChecked (S.rows sheet.now) (S.codes sheet.now) text.now result }
{
    first_fault(sheet, text)
}

// How many fields the text has, where it is a sentence of the sheet and there is room for an entry for each.
fn count_fields<S: Sheet>(sheet: &S, text: &[u8], room: usize) -> Result<usize, ReadingFault>
    ensures { result ≡ read_verdict (S.rows sheet.now) (S.codes sheet.now) text.now room }
{
    first_fault(sheet, text)?;
    let count = field_count(text);
    if count <= room {
        Ok(count)
    } else {
        Err(ReadingFault::Table(text.len()))
    }
}

// Reads the text by the sheet into the table, and answers how many entries it filled. Refused, it leaves the table as found.
pub fn read_by<S: Sheet>(sheet: &S, text: &[u8], table: &mut [Entry]) -> Result<usize, ReadingFault>
    ensures { Reads (S.rows sheet.now) (S.codes sheet.now) text.now table.old table.new result }
{
    let count = count_fields(sheet, text, table.len())?;
    fill(sheet, text, table);
    Ok(count)
}

// Reads the text as the message of this number, 565 or 567, into the table, and answers how many entries it filled. Refused, it leaves the
// table as found.
// Stays a number: it comes with the text from outside, and the first question is whether it is one of the two.
pub fn read(number: u16, text: &[u8], table: &mut [Entry]) -> Result<usize, ReadingFault>
    ensures { ReadsNumbered (sheet_of number) text.now table.old table.new result }
{
    let sheet = StandardSheet::try_from(number)?;
    read_by(&sheet, text, table)
}
