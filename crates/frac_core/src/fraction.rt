// Fractions: their arithmetic and their order.

ghost use Rattle.std.specs.Prelude.{◌≡◌, ◌+◌, ◌*◌, ◌<◌, ◌^◌, pos, nat_abs, ◌*ℤ◌, Err, IsTrue, ◌↔◌, if◌then◌else◌, false, ◌<ℤ◌, ◌≢◌};
ghost use Rattle.std.specs.Ordering.{int_eq};
ghost use Rattle.frac_core.specs.Gcd.{gcd};
ghost use Rattle.frac_core.specs.Fraction.{nought, fraction, signed, quotient, plus, difference, times, over, compare, whole, unit, is_wide};
ghost use Rattle.frac_core.specs.Results.{narrow};
ghost use Rattle.frac_core.specs.declared.fraction.FracFail.TheVariants.{ZeroDivisor};

use crate::divisor::gcd_of;
use std::cmp::Ordering;
use std::marker::Model;

/// Each part of a fraction is below this in size.
pub(crate) const BOUND: u128 = 1 << 62;

/// Why a call has no fraction to give.
#[derive(Clone, Copy, PartialEq, Eq)]
pub enum FracFail {
    /// The exact result has a part of 2^62 or more in size.
    Wide,
    /// A denominator or a divisor is 0.
    ZeroDivisor,
}

/// A fraction in lowest terms, with a positive denominator and parts below 2^62 in size.
#[derive(Clone, Copy)]
pub struct Frac {
    num: i64,
    den: i64,
}

impl Model for Frac {
    ghost use Rattle.std.specs.Prelude.{pos, nat_abs};
    ghost use Rattle.frac_core.specs.Fraction.{Fraction, fraction, IsKept};

    ghost Value = { Fraction };

    ghost view = { λ f. fraction f.num (nat_abs f.den) };

    ghost invariant = { λ f. IsKept f.num f.den };

    ghost inverse = { λ x. record { num = x.num; den = pos x.den } };

    ghost use Rattle.std.proofs.Common.{ap₂};
    ghost use Rattle.frac_core.specs.Laws.{num_kept, den_kept};

    ghost inverse_ok = { λ a h. ap₂ (λ n d. record { num = n; den = d }) (num_kept h) (den_kept h) };
}

impl PartialEq for Frac {
    ghost use Rattle.frac_core.specs.Fraction.{same_number};
    ghost use Rattle.frac_core.specs.Laws.{same_number_equiv};
    ghost use Rattle.std.specs.Cmp.{partial_equiv_from_equiv};

    ghost eq = { same_number };

    ghost laws = { partial_equiv_from_equiv same_number_equiv };

    fn eq(&self, other: &Frac) -> bool {
        self.wide_num() == other.wide_num() && self.wide_den() == other.wide_den()
    }
}

impl Eq for Frac {
    ghost use Rattle.frac_core.specs.Laws.{same_number_equiv};

    ghost laws = { same_number_equiv };
}

impl Frac {
    /// The number 0.
    pub fn zero() -> Frac
        ensures { result ≡ nought }
    {
        Frac::whole_number(0)
    }

    /// The number 1.
    pub fn one() -> Frac
        ensures { result ≡ unit }
    {
        Frac::whole_number(1)
    }

    /// `num` / `den` in lowest terms: `ZeroDivisor` where `den` is 0, else `Wide` where it passes the bound.
    pub fn new(num: i64, den: i64) -> Result<Frac, FracFail>
        ensures { result ≡ (if int_eq den (pos 0) then Err ZeroDivisor else narrow (quotient num den)) }
    {
        Frac::quotient(i128::from(num), i128::from(den))
    }

    /// The numerator, which has the fraction's sign.
    pub fn num(self) -> i64
        ensures value { result ≡ self.num }
        ensures small { is_wide self ≡ false }
    {
        self.num
    }

    /// The denominator, which is positive.
    pub fn den(self) -> i64
        ensures value { result ≡ pos self.den }
        ensures small { is_wide self ≡ false }
    {
        self.den
    }

    /// The sum, or `Wide` where it passes the bound.
    pub fn add(self, other: Frac) -> Result<Frac, FracFail>
        ensures { result ≡ narrow (plus self other) }
    {
        Frac::reduced(
            self.across(other) + other.across(self),
            self.wide_den() * other.wide_den(),
        )
    }

    /// The difference, or `Wide` where it passes the bound.
    pub fn sub(self, other: Frac) -> Result<Frac, FracFail>
        ensures { result ≡ narrow (difference self other) }
    {
        Frac::reduced(
            self.across(other) - other.across(self),
            self.wide_den() * other.wide_den(),
        )
    }

    /// The product, or `Wide` where it passes the bound.
    pub fn mul(self, other: Frac) -> Result<Frac, FracFail>
        ensures { result ≡ narrow (times self other) }
    {
        let num = product(self.wide_num(), other.wide_num());
        Frac::reduced(num, self.wide_den() * other.wide_den())
    }

    /// The quotient: `ZeroDivisor` where the divisor is 0, else `Wide` where it passes the bound.
    pub fn div(self, other: Frac) -> Result<Frac, FracFail>
        ensures { result ≡ (if int_eq other.num (pos 0) then Err ZeroDivisor else narrow (over self other)) }
    {
        Frac::quotient(self.across(other), other.across(self))
    }

    /// How the fraction stands to another in the order of numbers; never `Wide`.
    pub fn cmp(self, other: Frac) -> Ordering
        ensures { result ≡ compare self other }
    {
        self.across(other).cmp(&other.across(self))
    }

    /// Whether the two are one number.
    #[tactic(auto, using(crate::specs::Laws::same_parts))]
    pub fn same(self, other: Frac) -> bool
        ensures { IsTrue result ↔ (self ≡ other) }
    {
        self == other
    }

    /// The numerator, with room to multiply it.
    fn wide_num(self) -> i128
        ensures value { result ≡ self.num }
        ensures bound { nat_abs result < 2 ^ 62 }
    {
        i128::from(self.num)
    }

    /// The denominator, with room to multiply it.
    fn wide_den(self) -> u128
        ensures value { result ≡ self.den }
        ensures bound { result < 2 ^ 62 }
    {
        u128::from(self.den.unsigned_abs())
    }

    /// The numerator that the fraction has over the product of both denominators.
    fn across(self, other: Frac) -> i128
        ensures value { result ≡ self.num *ℤ pos other.den }
        ensures bound { nat_abs result < 2 ^ 124 }
    {
        product(self.wide_num(), other.wide_den() as i128)
    }

    /// A whole number as a fraction.
    pub(crate) fn whole_number(num: i64) -> Frac
        requires { nat_abs num < 2 ^ 62 }
        ensures { result ≡ whole num }
    {
        Frac { num, den: 1 }
    }

    /// `num` / `den` in lowest terms, for numbers with room to change their sign.
    fn quotient(num: i128, den: i128) -> Result<Frac, FracFail>
        requires top { nat_abs num < 2 ^ 124 }
        requires below { nat_abs den < 2 ^ 124 }
        ensures { result ≡ (if int_eq den (pos 0) then Err ZeroDivisor else narrow (quotient num den)) }
    {
        if den == 0 {
            Err(FracFail::ZeroDivisor)
        } else if den < 0 {
            Frac::reduced(-num, den.unsigned_abs())
        } else {
            Frac::reduced(num, den.unsigned_abs())
        }
    }

    /// `num` / `den` in lowest terms, for a positive denominator.
    fn reduced(num: i128, den: u128) -> Result<Frac, FracFail>
        requires { 0 < den }
        ensures { result ≡ narrow (fraction num den) }
    {
        let size = num.unsigned_abs();
        if den == 1 {
            return Frac::lowest(num < 0, size, den);
        }
        let common = gcd_of(size, den);
        Frac::lowest(num < 0, size / common, den / common)
    }

    /// The fraction of a numerator's sign and size and a positive denominator that have no common factor.
    pub(crate) fn lowest(negative: bool, size: u128, den: u128) -> Result<Frac, FracFail>
        requires positive { 0 < den }
        requires apart { gcd size den ≡ 1 }
        ensures { result ≡ narrow (fraction (signed negative size) den) }
    {
        if size < BOUND && den < BOUND {
            let part = size as i64;
            Ok(Frac {
                num: if negative { -part } else { part },
                den: den as i64,
            })
        } else {
            Err(FracFail::Wide)
        }
    }
}

/// The product of two numbers below 2^62 in size.
fn product(a: i128, b: i128) -> i128
    requires first { nat_abs a < 2 ^ 62 }
    requires second { nat_abs b < 2 ^ 62 }
    ensures value { result ≡ a *ℤ b }
    ensures bound { nat_abs result < 2 ^ 124 }
{
    a * b
}
