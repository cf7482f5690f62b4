// The classes of characters that the rules of a text speak of.
ghost use Rattle.std.specs.Prelude.{◌≡◌};
ghost use Rattle.fields.specs.Characters.{digit, capital, alphanumeric, set_x};

// 0 to 9
pub fn is_digit(c: u8) -> bool
    ensures { result ≡ digit c }
{
    c.is_ascii_digit()
}

// A to Z
pub fn is_capital(c: u8) -> bool
    ensures { result ≡ capital c }
{
    c.is_ascii_uppercase()
}

// A to Z and 0 to 9: the characters of a qualifier.
pub fn is_alphanumeric(c: u8) -> bool
    ensures { result ≡ alphanumeric c }
{
    is_capital(c) || is_digit(c)
}

// Set x: the letters, the digits, the space and ten marks.
pub fn in_set_x(c: u8) -> bool
    ensures { result ≡ set_x c }
{
    c.is_ascii_alphanumeric() || b" /-?:().,'+".contains(&c)
}
