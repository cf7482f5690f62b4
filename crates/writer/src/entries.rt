// The first entry that cannot be spelled.
ghost use Rattle.std.specs.Prelude.{◌≡◌};
ghost use Rattle.writer.specs.Entries.{good_entry, entry_fault};
ghost use Rattle.writer.specs.Writing.{entries_verdict};

use crate::faults::WritingFault;
use crate::parts::{has_colon_line, has_key, is_inside};
use fields::walk::part;
use reader::table::Entry;
use sheet::interface::Sheet;

// Has the entry a row, and a part inside the bytes with that row's key and no colon in it directly behind a CR LF?
fn is_good_entry<S: Sheet>(sheet: &S, entry: Entry, bytes: &[u8]) -> bool
    ensures { result ≡ good_entry (S.rows sheet.now) bytes.now entry }
{
    let Some(row) = sheet.row(entry.row) else {
        return false;
    };
    let part = part(bytes, entry.start, entry.len);
    is_inside(entry, bytes) && has_key(row, part) && !has_colon_line(part)
}

// The number of the first entry, from 0, that cannot be spelled.
fn entry_fault<S: Sheet>(sheet: &S, entries: &[Entry], bytes: &[u8]) -> Option<usize>
    ensures { result ≡ entry_fault (S.rows sheet.now) bytes.now entries.now }
{
    entries
        .iter()
        .position(|entry| !is_good_entry(sheet, *entry, bytes))
}

// Can each entry be spelled?
pub(crate) fn check_entries<S: Sheet>(
    sheet: &S,
    entries: &[Entry],
    bytes: &[u8],
) -> Result<(), WritingFault>
    ensures { result ≡ entries_verdict (entry_fault (S.rows sheet.now) bytes.now entries.now) }
{
    match entry_fault(sheet, entries, bytes) {
        Some(index) => Err(WritingFault::Entry(index)),
        None => Ok(()),
    }
}
