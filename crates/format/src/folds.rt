// Text that is folded to lines of 35 characters.
ghost use Rattle.std.specs.Prelude.{◌≡◌, ℕ, ◌<◌, length, true, false, MatchOption, MatchResult};
ghost use Rattle.std.specs.Option.{option_map};
ghost use Rattle.format.specs.Folding.{behind_break, is_folded, unfolded, unfolded_from};

use crate::text::{Plain, Text};
use fields::walk::part;
use short::short::{Full, Short};

// How many characters stand in a line.
pub const WIDTH: usize = 35;

const TWO_LINES: usize = 2 * WIDTH;

// Bytes that are folded to lines, the first of which has room for so many characters. It means the characters without the CR LFs between
// the lines.
#[derive(Clone, Copy)]
pub struct Folded<'a> {
    bytes: &'a [u8],
    room: usize,
}

impl<'a> Folded<'a> {
    // The value, where it is folded.
    pub fn new(value: &'a [u8]) -> Option<Self>
        ensures { MatchOption result (is_folded 35 value.now ≡ false) (λ t. (is_folded 35 value.now ≡ true) × (t.room ≡ 35) × (t.bytes.now ≡ value.now)) }
    {
        is_folded(value).then_some(Folded::line(value))
    }

    // What begins with a line.
    fn line(bytes: &'a [u8]) -> Self
        ensures { (result.room ≡ 35) × (result.bytes.now ≡ bytes.now) }
    {
        Folded { bytes, room: WIDTH }
    }
}

// The characters of folded bytes, one behind the other, where there are not more than two lines.
pub fn flat(bytes: &[u8]) -> Result<Short<u8, TWO_LINES>, Full>
    ensures { MatchResult result (λ t. t.items ≡ unfolded 35 bytes.now) (λ _. 72 < length bytes.now) }
{
    let mut text = Short::new(0);
    text.append(part(bytes, 0, WIDTH))?;
    text.append(part(bytes, WIDTH + 2, bytes.len()))?;
    Ok(text)
}

impl Text for Folded<'_> {
    ghost chars = { λ t. unfolded_from 35 t.room t.bytes.now };

    fn split_first(self) -> Option<(u8, Self)> {
        // where a line is full, the next one begins two bytes on
        let line = if self.room == 0 {
            Folded::line(self.bytes.get(2..)?)
        } else {
            self
        };
        let (c, bytes) = line.bytes.split_first()?;
        let room = line.room - 1;
        Some((*c, Folded { bytes, room }))
    }

    // Where the line has room for the word, no break stands in it.
    fn after_word(self, word: &[u8]) -> Option<Self> {
        let Some(room) = self.room.checked_sub(word.len()) else {
            return self.step_over(word);
        };
        let bytes = self.bytes.strip_prefix(word)?;
        Some(Folded { bytes, room })
    }
}

// What is left behind a CR LF, where one stands at the front and more behind it.
fn behind_break<T: Text>(text: T) -> Option<T>
    ensures { option_map T.chars result ≡ behind_break (T.chars text) }
{
    text.after_word(b"\r\n").filter(|next| !next.is_end())
}

// Does a CR LF stand behind every line that another follows, and is no line but the last shorter than 35 characters?
fn is_folded(value: &[u8]) -> bool
    ensures { result ≡ is_folded 35 value.now }
{
    let mut line = value;
    // Stays a loop: a line is right by what stands behind it, and a chain over pieces of 37 bytes would have to set the last one apart.
    while line.len() > WIDTH {
        let Some(next) = behind_break(Plain(&line[WIDTH..])) else {
            return false;
        };
        line = next.0;
    }
    true
}
