// Decimal literals, as the PRISM manual's numbers and those of RFC 8259 (section 6) are kept, and their values.

ghost use Rattle.std.specs.Prelude.{◌≡◌, ◌⊎◌, ◌*◌, ◌<◌, ◌≤◌, ◌^◌};
ghost use Rattle.frac_core.specs.Gcd.{gcd};
ghost use Rattle.frac_core.specs.Fraction.{fraction, whole, times, signed};
ghost use Rattle.frac_core.specs.Results.{narrow};
ghost use Rattle.frac_core.specs.Decimal.{decimal_value, ten_to};

use crate::fraction::{BOUND, Frac, FracFail};

/// A decimal literal: its digits times 10 to the exponent, with a sign. Readers make it in normal form: a real has
/// digits that are not divisible by 10, or digits 0 and exponent 0; an int has exponent 0; zero has no sign.
#[derive(Clone, Copy, Debug, PartialEq, Eq)]
pub struct Decimal {
    /// Whether the literal is a real; else it is an int.
    pub real: bool,
    pub negative: bool,
    pub exponent: i32,
    pub digits: u128,
}

impl Frac {
    /// The value of a literal, in normal form or not: `Wide` where it passes the bound.
    pub fn from_decimal(d: Decimal) -> Result<Frac, FracFail>
        ensures { result ≡ narrow (decimal_value d) }
    {
        let Decimal {
            negative,
            digits,
            exponent,
            ..
        } = d;
        if digits == 0 {
            return Ok(Frac::zero());
        }
        times_power_of_ten(negative, digits, exponent)
    }
}

/// The signed digits times 10 to the exponent.
fn times_power_of_ten(negative: bool, digits: u128, exponent: i32) -> Result<Frac, FracFail>
    ensures { result ≡ narrow (times (whole (signed negative digits)) (ten_to exponent)) }
{
    let places = exponent.unsigned_abs();
    if exponent < 0 {
        over_tens(negative, digits, places)
    } else {
        times_tens(negative, digits, places)
    }
}

/// The digits times 10 to the number of places. Each round makes them ten times as large, so digits other than 0 take at
/// most 19 rounds.
fn times_tens(negative: bool, digits: u128, places: u32) -> Result<Frac, FracFail>
    ensures { result ≡ narrow (fraction (signed negative (digits * 10 ^ places)) 1) }
{
    let mut size = digits;
    let mut left = places;
    while left > 0 {
        if size >= BOUND {
            return Err(FracFail::Wide);
        }
        size *= 10;
        left -= 1;
    }
    Frac::lowest(negative, size, 1)
}

/// The digits divided by 10 to the number of places. Each round halves the digits or doubles the denominator, so digits
/// other than 0 take at most 128 + 62 rounds.
fn over_tens(negative: bool, digits: u128, places: u32) -> Result<Frac, FracFail>
    ensures { result ≡ narrow (fraction (signed negative digits) (10 ^ places)) }
{
    let mut parts = (digits, 1);
    let mut left = places;
    while left > 0 {
        if parts.1 >= BOUND {
            return Err(FracFail::Wide);
        }
        let halved = over_prime(parts.0, parts.1, 2);
        parts = over_prime(halved.0, halved.1, 5);
        left -= 1;
    }
    Frac::lowest(negative, parts.0, parts.1)
}

/// A numerator and a denominator without a common factor, when their quotient is divided by 2 or 5.
fn over_prime(size: u128, den: u128, prime: u128) -> (u128, u128)
    requires positive { 0 < den }
    requires apart { gcd size den ≡ 1 }
    requires prime { (prime ≡ 2) ⊎ (prime ≡ 5) }
    requires small { den < 2 ^ 64 }
    ensures positive { 0 < result.1 }
    ensures apart { gcd result.0 result.1 ≡ 1 }
    ensures across { result.0 * (den * prime) ≡ size * result.1 }
    ensures small { result.1 ≤ den * prime }
{
    if size % prime == 0 {
        (size / prime, den)
    } else {
        (size, den * prime)
    }
}
