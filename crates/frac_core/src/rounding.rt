// Whole numbers: `floor`, `ceil` and `mod` of the PRISM manual's expressions, and `floor`, `ceil` and `%` of the
// jani-model specification's.

ghost use Rattle.std.specs.Prelude.{◌≡◌, IsTrue};
ghost use Rattle.frac_core.specs.Fraction.{whole, is_whole, floor_of, ceil_of, remainder};

use crate::fraction::Frac;

impl Frac {
    /// Whether the fraction is a whole number.
    pub fn is_whole(self) -> bool
        ensures { result ≡ is_whole self }
    {
        self.den() == 1
    }

    /// The greatest whole number at most the fraction.
    pub fn floor(self) -> Frac
        ensures { result ≡ whole (floor_of self) }
    {
        Frac::whole_number(self.num().div_euclid(self.den()))
    }

    /// The least whole number at least the fraction.
    pub fn ceil(self) -> Frac
        ensures { result ≡ whole (ceil_of self) }
    {
        Frac::whole_number(-(-self.num()).div_euclid(self.den()))
    }

    /// The remainder of a division of whole numbers, from 0 to `other` - 1: `None` where `other` is at most 0.
    pub fn modulo(self, other: Frac) -> Option<Frac>
        requires dividend { IsTrue (is_whole self) }
        requires divisor { IsTrue (is_whole other) }
        ensures { result ≡ remainder self other }
    {
        if other.num() <= 0 {
            return None;
        }
        Some(Frac::whole_number(self.num().rem_euclid(other.num())))
    }
}
