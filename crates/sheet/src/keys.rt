// Which row a field is of.
ghost use Rattle.std.specs.Prelude.{◌≡◌};
ghost use Rattle.sheet.specs.Keys.{key_from, key_of, find_row};
ghost use Rattle.sheet.specs.Laws.{Found, LawTested};

use crate::interface::Sheet;
use crate::walk::Rows;
use fields::headers::{Qualifier, Tag};
use fields::walk::{Field, value_of};

// What tells the row of a field: its tag, its qualifier if it has one, and its value, which is the name in a field that begins or ends a block.
#[derive(Clone, Copy)]
pub struct Key<'a> {
    pub tag: Tag,
    pub qualifier: Option<Qualifier>,
    pub value: &'a [u8],
}

// The key of a field of the text.
pub fn key_of(text: &[u8], field: Field) -> Key<'_>
    ensures { key_from result ≡ key_of text.now field }
{
    Key {
        tag: field.tag,
        qualifier: field.qualifier,
        value: value_of(text, field),
    }
}

// The number of the row that has the key.
pub fn find_row<S: Sheet>(sheet: &S, key: Key<'_>) -> Option<usize>
    ensures value { result ≡ find_row (S.rows sheet.now) (key_from key.entry) }
    ensures found { Found (S.rows sheet.now) (key_from key.entry) result }
    ensures law { LawTested }
{
    Rows::of(sheet)
        .find(|(_, row)| row.has_key(key))
        .map(|(number, _)| number)
}
