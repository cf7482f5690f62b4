// The formats that only tell a right value from a wrong one.
ghost use Rattle.std.specs.Prelude.{◌≡◌, ℕ, Decides};
ghost use Rattle.std.specs.Option.{option_map};
ghost use Rattle.fields.specs.Characters.{alphanumeric, digit, set_x};
ghost use Rattle.format.specs.Runs.{Of, after_some};
ghost use Rattle.format.specs.Simple.{Isin, Lines, is_account, is_isin, is_isin_code, is_lines, is_option_number, is_owner, is_reference, is_timestamp};

use crate::folds::WIDTH;
use crate::runs::Class;
use crate::text::{Plain, Text};

// Stays: five calls of `fills`, since each name is a format's, with a promise of its own that its callers cite.

// A reference: 1 to 16 characters of set x.
pub fn is_reference(value: &[u8]) -> bool
    ensures value { result ≡ is_reference value.now }
    ensures meaning { Decides result (Of set_x 1 16 value.now) }
{
    Class::SetX.fills(Plain(value), 1, 16)
}

// An account: 1 to 35 characters of set x.
pub fn is_account(value: &[u8]) -> bool
    ensures value { result ≡ is_account value.now }
    ensures meaning { Decides result (Of set_x 1 35 value.now) }
{
    Class::SetX.fills(Plain(value), 1, 35)
}

// A time: 14 digits.
pub fn is_timestamp(value: &[u8]) -> bool
    ensures value { result ≡ is_timestamp value.now }
    ensures meaning { Decides result (Of digit 14 14 value.now) }
{
    Class::Digit.fills(Plain(value), 14, 14)
}

// The number of an option: three capital letters or digits.
pub fn is_option_number(value: &[u8]) -> bool
    ensures value { result ≡ is_option_number value.now }
    ensures meaning { Decides result (Of alphanumeric 3 3 value.now) }
{
    Class::Alphanumeric.fills(Plain(value), 3, 3)
}

// The code of an ISIN: twelve capital letters or digits.
pub fn is_isin_code(value: &[u8]) -> bool
    ensures value { result ≡ is_isin_code value.now }
    ensures meaning { Decides result (Of alphanumeric 12 12 value.now) }
{
    Class::Alphanumeric.fills(Plain(value), 12, 12)
}

// Is the text the word `ISIN`, a space and the code of an ISIN?
fn is_isin_text<T: Text>(text: T) -> bool
    ensures { result ≡ is_isin (T.chars text) }
{
    text.after_word(b"ISIN ")
        .is_some_and(|code| Class::Alphanumeric.fills(code, 12, 12))
}

// An ISIN: the word, a space and the code.
pub fn is_isin(value: &[u8]) -> bool
    ensures value { result ≡ is_isin value.now }
    ensures meaning { Decides result (Isin value.now) }
{
    is_isin_text(Plain(value))
}

// What is left behind a line: 1 to 35 characters of set x.
fn after_line<T: Text>(text: T) -> Option<T>
    ensures { option_map T.chars result ≡ after_some set_x 1 35 (T.chars text) }
{
    Class::SetX.run(text, 1, WIDTH)
}

// Is the text from 1 to `most` lines, with CR LF between them?
fn is_lines<T: Text>(text: T, most: usize) -> bool
    ensures { result ≡ is_lines most (T.chars text) }
{
    let mut lines = text;
    for _line in 0..most {
        let Some(rest) = after_line(lines) else {
            return false;
        };
        if rest.is_end() {
            return true;
        }
        let Some(next) = rest.after_word(b"\r\n") else {
            return false;
        };
        lines = next;
    }
    false
}

// Is the text 1 to 10 lines?
fn is_owner_text<T: Text>(text: T) -> bool
    ensures { result ≡ is_owner (T.chars text) }
{
    is_lines(text, 10)
}

// An owner: 1 to 10 lines of 1 to 35 characters of set x.
pub fn is_owner(value: &[u8]) -> bool
    ensures value { result ≡ is_owner value.now }
    ensures meaning { Decides result (Lines 10 value.now) }
{
    is_owner_text(Plain(value))
}
