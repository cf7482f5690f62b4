// Numbers modulo 10,000,000,000.
ghost use Rattle.std.specs.Prelude.{◌≡◌, ◌-◌, ◌%◌};
ghost use Rattle.tally.specs.Control.{control_modulus};

const MODULUS: u128 = 10_000_000_000;

// What is left of a whole number.
pub fn reduced(n: u128) -> u64
    ensures { result ≡ n % control_modulus }
{
    (n % MODULUS) as u64
}

// What takes a weight back when it is added.
pub fn opposite(weight: u64) -> u64
    ensures { result ≡ (control_modulus - weight) % control_modulus }
{
    reduced(MODULUS.saturating_sub(u128::from(weight)))
}
