// Filing a text as it was sent.
ghost use Rattle.std.specs.Prelude.{◌≡◌};
ghost use Rattle.writer.specs.declared.filing.FilingFault.TheVariants.{Reading as by_reading, Writing as by_writing};
ghost use Rattle.reader.specs.declared.faults.ReadingFault.TheVariants.{MessageNumber as unknown};
ghost use Rattle.writer.specs.Filing.{Refiles};
ghost use Rattle.sheets.specs.Standards.{sheet_of};
ghost use Rattle.writer.specs.Numbers.{RefilesNumbered};

use crate::faults::WritingFault;
use crate::output::Output;
use crate::writing::write_by;
use reader::faults::ReadingFault;
use reader::reading::read_by;
use reader::table::Entry;
use sheet::interface::Sheet;
use sheets::standard::{StandardSheet, UnknownMessage};

// Why a text is not filed.
#[derive(Clone, Copy, PartialEq, Eq, Debug)]
pub enum FilingFault {
    // It was not read.
    Reading(ReadingFault),
    // It was not written again.
    Writing(WritingFault),
}

impl From<ReadingFault> for FilingFault {
    ghost from_gives = { λ e r. r ≡ by_reading e };

    fn from(fault: ReadingFault) -> FilingFault {
        FilingFault::Reading(fault)
    }
}

// No sheet has the message number, so the text is not read.
impl From<UnknownMessage> for FilingFault {
    ghost from_gives = { λ _ r. r ≡ by_reading unknown };

    fn from(fault: UnknownMessage) -> FilingFault {
        FilingFault::Reading(ReadingFault::from(fault))
    }
}

impl From<WritingFault> for FilingFault {
    ghost from_gives = { λ e r. r ≡ by_writing e };

    fn from(fault: WritingFault) -> FilingFault {
        FilingFault::Writing(fault)
    }
}

// Reads the text by the sheet into the table, and writes it again from what was found. Every sentence is filed unchanged, given room.
// Short of that the output is zeros throughout.
pub fn refile_by<S: Sheet>(
    sheet: &S,
    text: &[u8],
    table: &mut [Entry],
    out: &mut [u8],
) -> Result<usize, FilingFault>
    ensures { Refiles (S.rows sheet.now) (S.codes sheet.now) text.now table.old table.new out.old out.new result }
{
    let mut output = Output::over(out);
    let count = read_by(sheet, text, table)?;
    let len = write_by(sheet, &table[0..count], text, output.bytes)?;
    output.finished = true;
    Ok(len)
}

// Files the message of this number, 565 or 567, as `refile_by` does by its sheet.
pub fn refile(
    number: u16,
    text: &[u8],
    table: &mut [Entry],
    out: &mut [u8],
) -> Result<usize, FilingFault>
    ensures { RefilesNumbered (sheet_of number) text.now table.old table.new out.old out.new result }
{
    // Stays a match, as in `write`.
    match StandardSheet::try_from(number) {
        Ok(sheet) => refile_by(&sheet, text, table, out),
        Err(fault) => {
            out.fill(0);
            Err(FilingFault::from(fault))
        }
    }
}
