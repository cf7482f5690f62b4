// The header of a field: a colon, the tag, a colon, and for most tags another colon and the qualifier with its slash.
ghost use Rattle.std.specs.Prelude.{◌≡◌, ◌≤◌, length, IfSome, if◌then◌else◌};
ghost use Rattle.fields.specs.Headers.{tagged, tag_of, bare, qualified, qualifier_of, header as header_of};

use crate::characters::{is_alphanumeric, is_capital, is_digit};

// The name of a kind of field: two digits and a capital letter.
#[derive(Clone, Copy, PartialEq, Eq, Debug)]
pub struct Tag(pub u8, pub u8, pub u8);

// What a field with a tag is about: four capital letters or digits.
#[derive(Clone, Copy, PartialEq, Eq, Debug)]
pub struct Qualifier(pub u8, pub u8, pub u8, pub u8);

// What a header says, and how many bytes stand before the value, which begins with the qualifier where there is one.
#[derive(Clone, Copy)]
pub struct Header {
    pub tag: Tag,
    pub qualifier: Option<Qualifier>,
    pub len: usize,
}

impl Tag {
    // Has a field with this tag no qualifier? So it is with 16R, 16S, 23G and 35B.
    pub fn is_bare(self) -> bool
        ensures { result ≡ bare self }
    {
        match self {
            Tag(b'1', b'6', b'R' | b'S') => true,
            Tag(b'2', b'3', b'G') => true,
            Tag(b'3', b'5', b'B') => true,
            _ => false,
        }
    }
}

// The tag of a line that begins with a colon, a tag and a colon.
fn leading_tag(line: &[u8]) -> Option<Tag>
    ensures { result ≡ if tagged line.now then Some (tag_of line.now) else None }
{
    match line {
        [b':', a, b, c, b':', ..] if is_digit(*a) && is_digit(*b) && is_capital(*c) => {
            Some(Tag(*a, *b, *c))
        }
        _ => None,
    }
}

// The qualifier, where another colon, a qualifier and a slash follow.
fn leading_qualifier(line: &[u8]) -> Option<Qualifier>
    ensures { result ≡ if qualified line.now then Some (qualifier_of line.now) else None }
{
    match line {
        [_, _, _, _, _, b':', a, b, c, d, b'/', ..]
            if is_alphanumeric(*a)
                && is_alphanumeric(*b)
                && is_alphanumeric(*c)
                && is_alphanumeric(*d) => { Some(Qualifier(*a, *b, *c, *d)) }
        _ => None,
    }
}

// The header of a line, where the line begins with a right one.
pub(crate) fn read_header(line: &[u8]) -> Option<Header>
    ensures value { result ≡ header_of line.now }
    ensures within { IfSome result (λ h. h.len ≤ length line.now) }
{
    let tag = leading_tag(line)?;
    if tag.is_bare() {
        return Some(Header {
            tag,
            qualifier: None,
            len: 5,
        });
    }
    let qualifier = leading_qualifier(line)?;
    Some(Header {
        tag,
        qualifier: Some(qualifier),
        len: 6,
    })
}
