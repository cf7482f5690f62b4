// Runs of characters of one class.
ghost use Rattle.std.specs.Prelude.{◌≡◌, ℕ, Decides};
ghost use Rattle.std.specs.Option.{option_map};
ghost use Rattle.format.specs.Runs.{Of, after_some, first_of, is_of};
ghost use Rattle.format.specs.Classes.{is_in};
ghost use Rattle.format.specs.Texts.{left};

use crate::text::Text;
use fields::characters::{in_set_x, is_alphanumeric, is_capital, is_digit};

// A class of characters.
// Stays an enum: clauses name a class by it, and of a function in its place each would have to say which characters it tells.
#[derive(Clone, Copy)]
pub enum Class {
    // 1 to 9: with what a number may begin
    Leading,
    // 0 to 9
    Digit,
    // A to Z
    Capital,
    // A to Z and 0 to 9
    Alphanumeric,
    // the letters, the digits, the space and ten marks
    SetX,
}

impl Class {
    fn has(self, c: u8) -> bool
        ensures { result ≡ is_in self c }
    {
        match self {
            Class::Leading => (b'1'..=b'9').contains(&c),
            Class::Digit => is_digit(c),
            Class::Capital => is_capital(c),
            Class::Alphanumeric => is_alphanumeric(c),
            Class::SetX => in_set_x(c),
        }
    }

    // The first character of a text, where it is of the class, and what is left behind it.
    pub fn first<T: Text>(self, text: T) -> Option<(u8, T)>
        ensures { left T.chars result ≡ first_of (is_in self) (T.chars text) }
    {
        text.split_first().filter(|(c, _)| self.has(*c))
    }

    // What is left behind the characters of the class at the front, where there are from `least` to `most`.
    pub fn run<T: Text>(self, text: T, least: usize, most: usize) -> Option<T>
        ensures { option_map T.chars result ≡ after_some (is_in self) least most (T.chars text) }
    {
        let mut rest = text;
        for len in 0..=most {
            let Some(read) = self.first(rest) else {
                return (least <= len).then_some(rest);
            };
            (_, rest) = read;
        }
        None
    }

    // Is all of the text of the class, and from `least` to `most` characters?
    pub fn fills<T: Text>(self, text: T, least: usize, most: usize) -> bool
        ensures value { result ≡ is_of (is_in self) least most (T.chars text) }
        ensures meaning { Decides result (Of (is_in self) least most (T.chars text)) }
    {
        self.run(text, least, most)
            .is_some_and(|rest| rest.is_end())
    }
}
