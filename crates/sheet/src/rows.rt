// The rows of a sheet: where a block begins, where it ends, and the fields.
ghost use Rattle.std.specs.Prelude.{◌≡◌};
ghost use Rattle.sheet.specs.Rows.{row_of, name_of, qualifiers_of, is_qualifier as same_qualifier, among, admits};
ghost use Rattle.sheet.specs.Keys.{key_from, row_has};

use crate::keys::Key;
use crate::marks::Mark;
use fields::headers::{Qualifier, Tag};

// The tag of the field that begins a block, and of the one that ends it.
pub const BLOCK_START: Tag = Tag(b'1', b'6', b'R');

pub const BLOCK_END: Tag = Tag(b'1', b'6', b'S');

// The most bytes that a block's name has, and the most qualifiers that a row has.
pub const LONGEST_NAME: usize = 8;

pub const MOST_QUALIFIERS: usize = 9;

// The name of a block: the first `len` of the bytes.
// Stays an array with a length, as the qualifiers below: a sheet may compute its rows, which then are lent from nowhere.
#[derive(Clone, Copy)]
pub struct BlockName {
    pub bytes: [u8; LONGEST_NAME],
    pub len: usize,
}

impl BlockName {
    pub fn as_bytes(&self) -> &[u8]
        ensures { result.now ≡ name_of self.now }
    {
        &self.bytes[0..self.len.min(LONGEST_NAME)]
    }
}

// Are the two qualifiers the same?
pub fn is_qualifier(a: Qualifier, b: Qualifier) -> bool
    ensures { result ≡ same_qualifier a b }
{
    a == b
}

// Is the qualifier one of those?
fn has_qualifier(items: &[Qualifier], wanted: Qualifier) -> bool
    ensures { result ≡ among wanted items.now }
{
    items.iter().any(|item| is_qualifier(*item, wanted))
}

// The qualifiers that a field of a row may have: the first `count` of the items.
#[derive(Clone, Copy)]
pub struct Qualifiers {
    pub items: [Qualifier; MOST_QUALIFIERS],
    pub count: usize,
}

impl Qualifiers {
    pub fn as_slice(&self) -> &[Qualifier]
        ensures { result.now ≡ qualifiers_of self.now }
    {
        &self.items[0..self.count.min(MOST_QUALIFIERS)]
    }

    // May a field have this qualifier? None is for a row that has no qualifiers.
    pub fn admit(&self, qualifier: Option<Qualifier>) -> bool
        ensures { result ≡ admits (qualifiers_of self.now) qualifier }
    {
        match qualifier {
            None => self.as_slice().is_empty(),
            Some(wanted) => has_qualifier(self.as_slice(), wanted),
        }
    }
}

// What a value is to look like.
#[derive(Clone, Copy, PartialEq, Eq, Debug)]
pub enum Format {
    Reference,
    Code,
    Timestamp,
    Isin,
    Account,
    Owner,
    AlternateIdentifier,
    Quantity,
    OptionNumber,
    Vote,
}

// The row of a field, with the qualifiers that one may have.
#[derive(Clone, Copy)]
pub struct FieldRow {
    pub mark: Mark,
    pub tag: Tag,
    pub qualifiers: Qualifiers,
    pub format: Format,
}

impl FieldRow {
    // May a field of the row have this qualifier? None is for a row that has no qualifiers.
    pub fn admits(self, qualifier: Option<Qualifier>) -> bool
        ensures { result ≡ admits (qualifiers_of self.qualifiers) qualifier }
    {
        self.qualifiers.admit(qualifier)
    }
}

// A row of a sheet.
#[derive(Clone, Copy)]
pub enum Row {
    // The field 16R with which the block of this name begins.
    Open(Mark, BlockName),
    // The field 16S with which it ends.
    Close(BlockName),
    Field(FieldRow),
}

impl Row {
    // Has the row the key?
    pub fn has_key(self, key: Key<'_>) -> bool
        ensures { result ≡ row_has (row_of self) (key_from key.entry) }
    {
        match self {
            Row::Open(_, name) => key.tag == BLOCK_START && key.value == name.as_bytes(),
            Row::Close(name) => key.tag == BLOCK_END && key.value == name.as_bytes(),
            Row::Field(field) => {
                key.tag != BLOCK_START
                    && key.tag != BLOCK_END
                    && key.tag == field.tag
                    && field.admits(key.qualifier)
            }
        }
    }
}
