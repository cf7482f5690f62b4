// Writing a text from a field table, by a sheet.
ghost use Rattle.std.specs.Prelude.{◌≡◌, length};
ghost use Rattle.writer.specs.Spelling.{spelled_text};
ghost use Rattle.writer.specs.Writing.{Spells, write_verdict, output_after};
ghost use Rattle.sheets.specs.Standards.{sheet_of};
ghost use Rattle.writer.specs.Laws.{Writes};
ghost use Rattle.writer.specs.Numbers.{WritesNumbered};

use crate::entries::check_entries;
use crate::faults::WritingFault;
use crate::output::{Output, place_text};
use crate::scratch::Scratch;
use crate::spelling::put_entries;
use reader::reading::check_sentence;
use reader::table::Entry;
use sheet::interface::Sheet;
use sheets::standard::StandardSheet;

// The text that the entries spell. If not, answers the first question about the entries, and then about the text, that is answered no.
fn spell<S: Sheet>(sheet: &S, entries: &[Entry], bytes: &[u8]) -> Result<Scratch, WritingFault>
    ensures { Spells (S.rows sheet.now) (S.codes sheet.now) entries.now bytes.now result }
{
    check_entries(sheet, entries, bytes)?;
    let mut scratch = Scratch::new(0);
    put_entries(&mut scratch, sheet, entries, bytes)?;
    check_sentence(sheet, scratch.as_slice())?;
    Ok(scratch)
}

// Writes under a guard, which leaves zeros throughout on every way out short of a finished text.
fn write_guarded<S: Sheet>(
    sheet: &S,
    entries: &[Entry],
    bytes: &[u8],
    out: &mut [u8],
) -> Result<usize, WritingFault>
    ensures value { result ≡ write_verdict (S.rows sheet.now) (S.codes sheet.now) entries.now bytes.now (length out.old) }
    ensures output { out.new ≡ output_after (spelled_text (S.rows sheet.now) bytes.now entries.now) out.old result }
{
    let mut output = Output::over(out);
    let scratch = spell(sheet, entries, bytes)?;
    let len = place_text(output.bytes, scratch.as_slice())?;
    output.finished = true;
    Ok(len)
}

// Writes the text that the entries, which point into the bytes, spell by the sheet, and answers its length. Short of a finished text
// the output is zeros throughout; the bytes behind a finished one stay.
pub fn write_by<S: Sheet>(
    sheet: &S,
    entries: &[Entry],
    bytes: &[u8],
    out: &mut [u8],
) -> Result<usize, WritingFault>
    ensures { Writes (S.rows sheet.now) (S.codes sheet.now) entries.now bytes.now out.old out.new result }
{
    write_guarded(sheet, entries, bytes, out)
}

// Writes the message of this number, 565 or 567, as `write_by` does by its sheet.
pub fn write(
    number: u16,
    entries: &[Entry],
    bytes: &[u8],
    out: &mut [u8],
) -> Result<usize, WritingFault>
    ensures { WritesNumbered (sheet_of number) entries.now bytes.now out.old out.new result }
{
    // Stays a match: a guard here would zero the output once more where the writing below, which has its own, is refused.
    match StandardSheet::try_from(number) {
        Ok(sheet) => write_by(&sheet, entries, bytes, out),
        Err(fault) => {
            out.fill(0);
            Err(WritingFault::from(fault))
        }
    }
}
