// The field table: what reading finds.
ghost use Rattle.std.specs.Prelude.{◌≡◌};
ghost use Rattle.reader.specs.Tables.{entry_of, table_of, filled};

use fields::walk::{Field, Fields};
use sheet::interface::Sheet;
use sheet::keys::{find_row, key_of};

// An entry of a field table: the number of the field's row, from 0, and where its value starts and how long that is.
#[derive(Clone, Copy, PartialEq, Eq, Debug)]
pub struct Entry {
    pub row: usize,
    pub start: usize,
    pub len: usize,
}

// The entry of a field. A field that is of no row gets the number behind the last.
fn entry_of<S: Sheet>(sheet: &S, text: &[u8], field: Field) -> Entry
    ensures { result ≡ entry_of (S.rows sheet.now) text.now field }
{
    Entry {
        row: find_row(sheet, key_of(text, field)).unwrap_or(sheet.len()),
        start: field.value,
        len: field.len,
    }
}

// Writes the entries of the text's fields, as many as there is room for; the other entries stay.
pub(crate) fn fill<S: Sheet>(sheet: &S, text: &[u8], table: &mut [Entry])
    ensures { table.new ≡ filled (table_of (S.rows sheet.now) text.now) table.old }
{
    // Stays two iterators side by side: after a `zip` of `iter_mut` a proof knows nothing of the entries.
    let mut fields = Fields::of(text);
    for entry in table.iter_mut() {
        let Some(field) = fields.next() else {
            return;
        };
        *entry = entry_of(sheet, text, field);
    }
}
