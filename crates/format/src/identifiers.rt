// Alternate identifiers.
ghost use Rattle.std.specs.Prelude.{◌≡◌, ℕ};
ghost use Rattle.std.specs.Option.{option_map};
ghost use Rattle.fields.specs.Characters.{set_x};
ghost use Rattle.format.specs.Identifier.{InIdentifier, identifier_in, identifier_text, meant, read_capitals, read_front, read_identifier, read_issuer};
ghost use Rattle.format.specs.Laws.{Decoded, Once};
ghost use Rattle.format.specs.Runs.{is_of};
ghost use Rattle.format.specs.Texts.{left};

use crate::runs::Class;
use crate::text::{Plain, Text, stands_for};

// The parts of an alternate identifier: whether its issuer NSDR is named, the code, the country, and where its text starts in the value.
#[derive(Clone, Copy, PartialEq, Eq, Debug)]
pub struct IdentifierParts {
    pub issuer: bool,
    pub code: [u8; 4],
    pub country: [u8; 2],
    pub start: usize,
}

// The next N characters, where they are capital letters, and what is left behind them.
fn capitals<T: Text, const N: usize>(text: T) -> Option<([u8; N], T)>
    ensures { left T.chars result ≡ read_capitals N (T.chars text) }
{
    let mut letters = [0; N];
    let mut rest = text;
    for letter in &mut letters {
        (*letter, rest) = Class::Capital.first(rest)?;
    }
    Some((letters, rest))
}

// Whether the issuer NSDR is named at the front, before a slash, and what is left behind that.
fn issuer<T: Text>(text: T) -> Option<(bool, T)>
    ensures { left T.chars result ≡ read_issuer (T.chars text) }
{
    stands_for(text, b"NSDR/", true).or_else(|| stands_for(text, b"/", false))
}

// What stands before an identifier's text: whether the issuer is named, the code and the country; and what is left behind them.
fn front<T: Text>(text: T) -> Option<((bool, [u8; 4], [u8; 2]), T)>
    ensures { left T.chars result ≡ read_front (T.chars text) }
{
    let (issuer, rest) = issuer(text.after_word(b"ALTE/")?)?;
    let (code, rest) = capitals::<T, 4>(rest)?;
    let (country, rest) = capitals::<T, 2>(rest.after_word(b"/")?)?;
    let rest = rest.after_word(b"/")?;
    Some(((issuer, code, country), rest))
}

// May the text be that of an identifier? It is of 1 to 30 characters of set x.
fn is_text<T: Text>(text: T) -> bool
    ensures { result ≡ is_of set_x 1 30 (T.chars text) }
{
    Class::SetX.fills(text, 1, 30)
}

// The parts of a value that is an identifier.
fn identifier_of(value: &[u8]) -> Option<IdentifierParts>
    ensures value { result ≡ read_identifier value.now }
    ensures meaning { option_map (meant value.now) result ≡ identifier_in value.now }
{
    let ((issuer, code, country), text) = front(Plain(value))?;
    is_text(text).then_some(IdentifierParts {
        issuer,
        code,
        country,
        start: value.len() - text.0.len(),
    })
}

// The parts of a value that is an alternate identifier: `ALTE/`, `NSDR` or nothing, a slash, a code of four capital letters, a slash, a
// country of two, a slash, and 1 to 30 characters of set x.
#[tactic(auto, using(crate::proofs::IdentifierLaws::identifier_decoded, crate::proofs::IdentifierLaws::identifier_once))]
pub fn identifier(value: &[u8]) -> Option<IdentifierParts>
    ensures value { result ≡ read_identifier value.now }
    ensures decoded { Decoded InIdentifier identifier_text value.now (option_map (meant value.now) result) }
    ensures once { Once InIdentifier identifier_text }
{
    identifier_of(value)
}
