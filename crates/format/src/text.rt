// Texts that are read from their front: their characters, their words, their end.
ghost use Rattle.std.specs.Prelude.{◌≡◌, ℕ, List, [], ◌∷◌, MatchOption};
ghost use Rattle.std.specs.Option.{option_map};
ghost use Rattle.format.specs.Texts.{after_word, is_end, left, stands_for};

// What is left of a text. It means the list of its characters.
pub trait Text: Copy {
    ghost chars: { Self → List ℕ };

    // The first character, and what is left behind it.
    fn split_first(self) -> Option<(u8, Self)>
        ensures { MatchOption result (chars self ≡ []) (λ p. chars self ≡ p.0 ∷ chars p.1) };

    // Is nothing left?
    fn is_end(self) -> bool
        ensures { result ≡ is_end (chars self) }
    {
        self.split_first().is_none()
    }

    // What is left behind `word`, where the text begins with it.
    fn after_word(self, word: &[u8]) -> Option<Self>
        ensures { option_map chars result ≡ after_word word.now (chars self) }
    {
        self.step_over(word)
    }

    // The same, character by character.
    fn step_over(self, word: &[u8]) -> Option<Self>
        ensures { option_map chars result ≡ after_word word.now (chars self) }
    {
        let mut rest = self;
        for c in word {
            let (x, next) = rest.split_first()?;
            if x != *c {
                return None;
            }
            rest = next;
        }
        Some(rest)
    }
}

// What `word` stands for, and what is left behind it, where the text begins with it.
pub fn stands_for<T: Text, A: Drop>(text: T, word: &[u8], meaning: A) -> Option<(A, T)>
    ensures { left T.chars result ≡ stands_for meaning (after_word word.now (T.chars text)) }
{
    text.after_word(word).map(|rest| (meaning, rest))
}

// The bytes as they stand.
#[derive(Clone, Copy)]
pub struct Plain<'a>(pub &'a [u8]);

impl Text for Plain<'_> {
    ghost chars = { λ t. t.0.now };

    fn split_first(self) -> Option<(u8, Self)> {
        let (c, rest) = self.0.split_first()?;
        Some((*c, Plain(rest)))
    }
}
