// The values of a text, by its field table.
ghost use Rattle.std.specs.Prelude.{◌≡◌, ◌==◌, find, Some as Given};
ghost use Rattle.std.specs.Option.{option_map};
ghost use Rattle.reader.specs.Values.{content_of};
ghost use Rattle.register.specs.Spelling.{spelling};
ghost use Rattle.message.specs.Texts.{text_of};
ghost use Rattle.message.specs.Values.{value_at, value_of, content_in, as_reference, reference_in, as_text, text_in, quantity_in};

use crate::rows::Keyed;
use crate::text::ShortText;
use fields::headers::Qualifier;
use fields::walk::part;
use format::quantities::quantity;
use reader::table::Entry;
use register::reference::Reference;

// A text that was read, and the entries of its fields. A part that is not there, or cannot be read, is None.
// Stays None, and no error: a text that is read has every part, so that none would ever be told.
#[derive(Clone, Copy)]
pub(crate) struct ReadText<'a> {
    pub text: &'a [u8],
    pub entries: &'a [Entry],
}

impl<'a> ReadText<'a> {
    // The value of an entry: the part of the text that it points to; less, where it points past the end.
    pub(crate) fn value_of(self, entry: Entry) -> &'a [u8]
        ensures { result.now ≡ value_at self.entry.text.now entry }
    {
        part(self.text, entry.start, entry.len)
    }

    // The first entry of the row.
    fn first_entry(self, row: usize) -> Option<Entry>
        ensures { result ≡ find (λ e. e.row == row) self.entry.entries.now }
    {
        self.entries.iter().find(|entry| entry.row == row).copied()
    }

    // Its value.
    pub(crate) fn first_value(self, row: usize) -> Option<&'a [u8]>
        ensures { option_map (λ x. x.now) result ≡ value_of self.entry.text.now self.entry.entries.now row }
    {
        Some(self.value_of(self.first_entry(row)?))
    }

    // What stands behind the qualifier in the row's first value.
    fn content(self, key: Keyed) -> Option<&'a [u8]>
        ensures { option_map (λ x. x.now) result ≡ content_in self.entry.text.now self.entry.entries.now key }
    {
        content(key.qualifier, self.first_value(key.row)?)
    }

    // That, as a reference.
    pub(crate) fn reference(self, key: Keyed) -> Option<Reference>
        ensures { option_map spelling result ≡ reference_in self.entry.text.now self.entry.entries.now key }
    {
        as_reference(self.content(key)?)
    }

    // As a text.
    pub(crate) fn short_text(self, key: Keyed) -> Option<ShortText>
        ensures { option_map text_of result ≡ text_in self.entry.text.now self.entry.entries.now key }
    {
        as_text(self.content(key)?)
    }

    // As a quantity of shares.
    pub(crate) fn quantity(self, key: Keyed) -> Option<u64>
        ensures { result ≡ quantity_in self.entry.text.now self.entry.entries.now key }
    {
        quantity(self.content(key)?)
    }
}

// What stands in a value behind the qualifier and two slashes.
pub(crate) fn content(qualifier: Qualifier, value: &[u8]) -> Option<&[u8]>
    ensures { option_map (λ x. x.now) result ≡ content_of (Given qualifier) value.now }
{
    let Qualifier(a, b, c, d) = qualifier;
    value.strip_prefix(&[a, b, c, d, b'/', b'/'])
}

// The reference that a text spells.
pub(crate) fn as_reference(content: &[u8]) -> Option<Reference>
    ensures { option_map spelling result ≡ as_reference content.now }
{
    Reference::new(content)
}

// The text, where it is short enough to be kept.
pub(crate) fn as_text(content: &[u8]) -> Option<ShortText>
    ensures { option_map text_of result ≡ as_text content.now }
{
    ShortText::copied(0, content).ok()
}
