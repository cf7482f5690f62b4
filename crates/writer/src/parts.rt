// Whether the part of the bytes that an entry points to lies inside them, and has its row's key.
ghost use Rattle.std.specs.Prelude.{◌≡◌};
ghost use Rattle.fields.specs.Laws.{colon_line};
ghost use Rattle.sheet.specs.Rows.{row_of};
ghost use Rattle.writer.specs.Entries.{inside, leading, qualifier_in, keyed, colon_at};

use fields::headers::Qualifier;
use reader::table::Entry;
use sheet::rows::Row;

// Does the entry point inside the bytes? No sum is made that could wrap.
// Stays two parameters, here and where entries are gone through: the entries are many over the same bytes.
pub(crate) fn is_inside(entry: Entry, bytes: &[u8]) -> bool
    ensures { result ≡ inside bytes.now entry }
{
    entry.start <= bytes.len() && entry.len <= bytes.len() - entry.start
}

// The four bytes with which the part begins, where a slash follows them.
fn leading_qualifier(part: &[u8]) -> Option<Qualifier>
    ensures { result ≡ leading part.now }
{
    match part {
        [a, b, c, d, b'/', ..] => Some(Qualifier(*a, *b, *c, *d)),
        _ => None,
    }
}

// The qualifier that the part has where its row has these; none where the row has none.
fn qualifier_in(qualifiers: &[Qualifier], part: &[u8]) -> Option<Qualifier>
    ensures { result ≡ qualifier_in qualifiers.now part.now }
{
    if qualifiers.is_empty() {
        None
    } else {
        leading_qualifier(part)
    }
}

// Has the part the row's key: the block's name; or one of the row's qualifiers and a slash, where it has any?
pub(crate) fn has_key(row: Row, part: &[u8]) -> bool
    ensures { result ≡ keyed (row_of row) part.now }
{
    match row {
        Row::Open(_, name) | Row::Close(name) => name.as_bytes() == part,
        Row::Field(field) => field.admits(qualifier_in(field.qualifiers.as_slice(), part)),
    }
}

// Does a CR LF with a colon behind it stand at the start?
fn begins_field(rest: &[u8]) -> bool
    ensures { result ≡ colon_at rest.now 0 }
{
    matches!(rest, [b'\r', b'\n', b':', ..])
}

// Does a CR LF with a colon behind it stand anywhere? A field would begin there.
pub(crate) fn has_colon_line(part: &[u8]) -> bool
    ensures { result ≡ colon_line part.now }
{
    part.windows(3).any(begins_field)
}
