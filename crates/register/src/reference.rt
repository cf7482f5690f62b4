// A reference: 1 to 16 characters of set x.
ghost use Rattle.std.specs.Prelude.{◌≡◌, ◌≤◌, true, false, T, [], ◌∷◌, take, Some, MatchOption, refl};
ghost use Rattle.std.specs.Str.{bytes_eq};
ghost use Rattle.register.specs.Order.{order};
ghost use Rattle.register.specs.Texts.{shaped, unpadded, padded, is_text, all_x};
ghost use Rattle.std.specs.Cmp.{partial_equiv_from_equiv, partial_order_from_agreeing_total};
ghost use Rattle.std.specs.Cmp.Lexicographic.{on_texts, on_texts_equal, texts_ties};

use fields::characters::in_set_x;
use std::cmp::Ordering;

// The characters, and zeros behind them. No character is zero, so that the whole arrays compare as the texts do.
#[derive(Clone, Copy)]
pub struct Reference {
    bytes: [u8; 16],
    ghost ok: { T (shaped bytes) },
}

impl Reference {
    // The reference that spells `text`; none if `text` is not 1 to 16 characters of set x.
    // Stays an Option, and no TryFrom: there is one way to be no reference, and an error would say no more.
    pub fn new(text: &[u8]) -> Option<Reference>
        ensures { MatchOption result (is_text text.now ≡ false) (λ x. (is_text text.now ≡ true) × (x.bytes ≡ padded text.now) × (unpadded x.bytes ≡ text.now)) }
    {
        if !is_text(text) {
            return None;
        }
        let mut bytes = [0; 16];
        bytes[..text.len()].copy_from_slice(text);
        Some(Reference { bytes })
    }

    // The characters.
    pub fn as_bytes(&self) -> &[u8]
        ensures { (result.now ≡ unpadded self.now.bytes) × (is_text result.now ≡ true) }
    {
        &self.bytes[..self.len()]
    }

    // How many they are.
    fn len(&self) -> usize
        ensures within { result ≤ 16 }
        ensures text { is_text (unpadded self.now.bytes) ≡ true }
        ensures ends { take result self.now.bytes ≡ unpadded self.now.bytes }
    {
        self.bytes.iter().position(|b| *b == 0).unwrap_or(16)
    }

    // Whether both spell one text: then they have the same zeros behind it.
    fn spells(&self, other: &Reference) -> bool
        ensures { result ≡ bytes_eq (unpadded self.now.bytes) (unpadded other.now.bytes) }
    {
        self.bytes == other.bytes
    }

    // The order of their texts: a zero is below every character, as the end of a text is.
    fn compare(&self, other: &Reference) -> Ordering
        ensures { result ≡ order (unpadded self.now.bytes) (unpadded other.now.bytes) }
    {
        self.bytes.cmp(&other.bytes)
    }

    // The reference `0`, for a slot that holds no pair yet.
    pub(crate) fn zero() -> Reference
        ensures { unpadded result.bytes ≡ 48 ∷ [] }
    {
        let mut bytes = [0; 16];
        bytes[0] = b'0';
        Reference { bytes }
    }
}

fn is_text(text: &[u8]) -> bool
    ensures { result ≡ is_text text.now }
{
    1 <= text.len() && text.len() <= 16 && all_in_set_x(text)
}

fn all_in_set_x(text: &[u8]) -> bool
    ensures { result ≡ all_x text.now }
{
    text.iter().all(|b| in_set_x(*b))
}

// Stays by hand, with the impls below: derives would tell of the padded bytes, and users ask about the texts.
impl PartialEq for Reference {
    ghost eq = { λ x y. bytes_eq (unpadded x.bytes) (unpadded y.bytes) };

    ghost laws = { partial_equiv_from_equiv (on_texts_equal (λ x. unpadded x.bytes)) };

    fn eq(&self, other: &Reference) -> bool {
        self.spells(other)
    }
}

impl Eq for Reference {
    ghost laws = { on_texts_equal (λ x. unpadded x.bytes) };
}

impl PartialOrd for Reference {
    ghost partial_cmp = { λ x y. Some (order (unpadded x.bytes) (unpadded y.bytes)) };

    ghost laws = { partial_order_from_agreeing_total (λ x y. order (unpadded x.bytes) (unpadded y.bytes)) (on_texts (λ x. unpadded x.bytes)) (λ _ _. refl) (λ x y. texts_ties (unpadded x.bytes) (unpadded y.bytes)) };

    fn partial_cmp(&self, other: &Reference) -> Option<Ordering> {
        Some(self.cmp(other))
    }
}

impl Ord for Reference {
    ghost cmp = { λ x y. order (unpadded x.bytes) (unpadded y.bytes) };

    ghost total = { on_texts (λ x. unpadded x.bytes) };

    ghost matches_partial_cmp = { λ _ _. refl };

    ghost matches_eq = { λ x y. texts_ties (unpadded x.bytes) (unpadded y.bytes) };

    fn cmp(&self, other: &Reference) -> Ordering {
        self.compare(other)
    }
}
