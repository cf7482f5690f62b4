// Numbers in decimal digits.
ghost use Rattle.std.specs.Prelude.{◌≡◌, ℕ, ◌^◌, ◌<◌, ◌≤◌, IfSome};
ghost use Rattle.format.specs.Numbers.{number as number_at};
ghost use Rattle.format.specs.Texts.{left};

use crate::runs::Class;
use crate::text::Text;

// The number at the front, of at most `most` digits, the first of which is not 0, and what is left behind it.
pub fn number<T: Text>(text: T, most: usize) -> Option<(u64, T)>
    requires { (0 < most) × (most ≤ 15) }
    ensures value { left T.chars result ≡ number_at most (T.chars text) }
    ensures below { IfSome result (λ p. p.0 < 10 ^ most) }
{
    let (first, mut rest) = Class::Leading.first(text)?;
    let mut n = u64::from(first - b'0');
    for _more in 1..most {
        let Some(read) = Class::Digit.first(rest) else {
            return Some((n, rest));
        };
        n = n * 10 + u64::from(read.0 - b'0');
        rest = read.1;
    }
    Class::Digit.first(rest).is_none().then_some((n, rest))
}
