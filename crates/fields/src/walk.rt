// The fields of a text, one after the other. A line with a header begins a field, any other line continues the one before it.
ghost use Rattle.std.specs.Prelude.{◌≡◌, ℕ, ◌+◌, ◌≤◌, [], ◌∷◌, length, take, drop, MatchOption};
ghost use Rattle.fields.specs.Lines.{lines};
ghost use Rattle.fields.specs.Fields.{continued as continuation, left as from, HeadAt, Next, value_in, fields as all_fields};
ghost use Rattle.fields.specs.Coming.{coming, gives};
ghost use Rattle.std.specs.Iterator.{item_count};

use crate::headers::{Header, Qualifier, Tag};
use crate::lines::Lines;

// A field of a text: where it starts, its tag, its qualifier if it has one, and where its value starts and how long that is.
#[derive(Clone, Copy)]
pub struct Field {
    pub start: usize,
    pub tag: Tag,
    pub qualifier: Option<Qualifier>,
    pub value: usize,
    pub len: usize,
}

// Where the lines end, from `from` on, that stand before the first with a header.
fn continued_to(text: &[u8], from: usize) -> usize
    requires { from ≤ length text.now }
    ensures value { result ≡ from + continuation (lines (drop from text.now)) }
    ensures within { result ≤ length text.now }
{
    Lines::from_place(text, from)
        .find(|line| line.ends_field())
        .map_or(text.len(), |line| line.start)
}

// The first line from `at` on that begins a field: where it starts, what it is, and what its header says.
fn next_head(text: &[u8], at: usize) -> Option<(usize, &[u8], Header)>
    ensures { MatchOption result (from text.now at ≡ []) (λ r. HeadAt text.now at r.0 r.1.now r.2) }
{
    let line = Lines::from_place(text, at).find(|line| line.header().is_some())?;
    Some((line.start, line.bytes?, line.header()?))
}

// The first field from `at` on, where a line starts. From 0 to the end of one field after the other this gives every field.
fn next_field(text: &[u8], at: usize) -> Option<Field>
    ensures { MatchOption result (from text.now at ≡ []) (λ f. Next text.now at f) }
{
    let (start, line, header) = next_head(text, at)?;
    let value = start + header.len;
    let end = continued_to(text, start + (line.len() + 2));
    Some(Field {
        start,
        tag: header.tag,
        qualifier: header.qualifier,
        value,
        len: end - 2 - value,
    })
}

// The `len` bytes of the text from `start` on; less, where the text is shorter.
pub fn part(text: &[u8], start: usize, len: usize) -> &[u8]
    ensures { result.now ≡ take len (drop start text.now) }
{
    let rest = &text[start.min(text.len())..];
    &rest[..len.min(rest.len())]
}

// The value of a field of the text; less, where the text is shorter.
pub fn value_of(text: &[u8], field: Field) -> &[u8]
    ensures { result.now ≡ value_in text.now field }
{
    part(text, field.value, field.len)
}

// The fields of a text, to be gone through by a `for`.
#[derive(Drop)]
pub struct Fields<'a> {
    text: &'a [u8],
    at: usize,
}

impl<'a> Fields<'a> {
    // The fields from place `at` on, where a line starts.
    fn from_place(text: &'a [u8], at: usize) -> Fields<'a>
        ensures rest { coming result ≡ from text.now at }
        ensures few { length (coming result) ≤ length text.now }
    {
        Fields { text, at }
    }

    pub fn of(text: &'a [u8]) -> Fields<'a>
        ensures all { coming result ≡ all_fields text.now }
        ensures few { length (coming result) ≤ length text.now }
    {
        Fields::from_place(text, 0)
    }
}

impl Iterator for Fields<'_> {
    type Item = Field;

    ghost next_gives = { gives };

    ghost remaining = { item_count coming };

    fn next(&mut self) -> Option<Field> {
        let field = next_field(self.text, self.at)?;
        self.at = field.value + (field.len + 2);
        Some(field)
    }
}

// How many fields a text has.
#[tactic(auto, using(crate::proofs::Chains::fields_counted))]
pub fn field_count(text: &[u8]) -> usize
    ensures { result ≡ length (all_fields text.now) }
{
    Fields::of(text).count()
}
