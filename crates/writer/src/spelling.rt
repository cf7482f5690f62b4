// Spelling entries, one after the other.
ghost use Rattle.std.specs.Prelude.{◌≡◌};
ghost use Rattle.sheet.specs.Rows.{row_of};
ghost use Rattle.writer.specs.Scratch.{Puts};
ghost use Rattle.writer.specs.Spelling.{tag_in, second_in, head_in, spelled_entry, spelled_text};

use crate::scratch::Scratch;
use fields::headers::Tag;
use fields::walk::part;
use reader::table::Entry;
use sheet::interface::Sheet;
use sheet::rows::{BLOCK_END, BLOCK_START, Row};
use short::short::Full;

// The tag of the row's fields.
fn tag_of(row: Row) -> Tag
    ensures { result ≡ tag_in (row_of row) }
{
    match row {
        Row::Open(..) => BLOCK_START,
        Row::Close(_) => BLOCK_END,
        Row::Field(field) => field.tag,
    }
}

// The second colon, where the row has qualifiers.
fn second_colon(row: Row) -> &'static [u8]
    ensures { result.now ≡ second_in (row_of row) }
{
    match row {
        Row::Field(field) if !field.admits(None) => b":",
        _ => b"",
    }
}

// Spells a colon, the row's tag, a colon, and another where the row has qualifiers.
fn put_header(scratch: &mut Scratch, row: Row) -> Result<(), Full>
    ensures { Puts scratch.old.items (head_in (row_of row)) scratch.new.items result }
{
    let Tag(a, b, c) = tag_of(row);
    scratch.append(&[b':', a, b, c, b':'])?;
    scratch.append(second_colon(row))
}

// Spells an entry: its header, its part and CR LF. One without a row is passed over.
fn put_entry<S: Sheet>(
    scratch: &mut Scratch,
    sheet: &S,
    entry: Entry,
    bytes: &[u8],
) -> Result<(), Full>
    ensures { Puts scratch.old.items (spelled_entry (S.rows sheet.now) bytes.now entry) scratch.new.items result }
{
    let Some(row) = sheet.row(entry.row) else {
        return Ok(());
    };
    put_header(scratch, row)?;
    scratch.append(part(bytes, entry.start, entry.len))?;
    scratch.append(b"\r\n")
}

// Spells the entries, if the text is not longer than any may be.
pub(crate) fn put_entries<S: Sheet>(
    scratch: &mut Scratch,
    sheet: &S,
    entries: &[Entry],
    bytes: &[u8],
) -> Result<(), Full>
    ensures { Puts scratch.old.items (spelled_text (S.rows sheet.now) bytes.now entries.now) scratch.new.items result }
{
    for entry in entries {
        put_entry(scratch, sheet, *entry, bytes)?;
    }
    Ok(())
}
