// Greatest common divisors, by Euclid's algorithm.

ghost use Rattle.std.specs.Prelude.{◌≡◌};
ghost use Rattle.frac_core.specs.Gcd.{gcd};

/// The greatest common divisor. It goes on in 64 bits as soon as the numbers fit, since a machine divides these faster.
pub fn gcd_of(a: u128, b: u128) -> u128
    ensures { result ≡ gcd a b }
{
    let mut x = a;
    let mut y = b;
    while y >= 1 << 64 {
        let rest = x % y;
        x = y;
        y = rest;
    }
    if y == 0 {
        return x;
    }
    u128::from(gcd_of_words(y as u64, (x % y) as u64))
}

fn gcd_of_words(a: u64, b: u64) -> u64
    ensures { result ≡ gcd a b }
{
    let mut x = a;
    let mut y = b;
    while y != 0 {
        let rest = x % y;
        x = y;
        y = rest;
    }
    x
}
