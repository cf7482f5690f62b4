// Quantities of shares.
ghost use Rattle.std.specs.Prelude.{◌≡◌, ℕ};
ghost use Rattle.format.specs.Laws.{Decoded, Once};
ghost use Rattle.format.specs.Quantity.{InQuantity, quantity_text, read_quantity};

use crate::numbers::number;
use crate::text::{Plain, Text};

// The largest quantity.
pub const LARGEST: u64 = 100_000_000_000;

// The quantity that a text spells.
fn quantity_of<T: Text>(text: T) -> Option<u64>
    ensures { result ≡ read_quantity (T.chars text) }
{
    let (n, rest) = number(text.after_word(b"UNIT/")?, 12)?;
    let rest = rest.after_word(b",")?;
    (rest.is_end() && n <= LARGEST).then_some(n)
}

// The quantity that a value spells: `UNIT/`, a whole number from 1 to 100,000,000,000 with no leading zero, a comma.
#[tactic(auto, using(crate::proofs::QuantityLaws::quantity_decoded, crate::proofs::QuantityLaws::quantity_once))]
pub fn quantity(value: &[u8]) -> Option<u64>
    ensures value { result ≡ read_quantity value.now }
    ensures decoded { Decoded InQuantity quantity_text value.now result }
    ensures once { Once InQuantity quantity_text }
{
    quantity_of(Plain(value))
}
