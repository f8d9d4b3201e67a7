//! Steps of sums and products. Most are of one number or two, so a first step from 0 or 1 is taken without arithmetic.
ghost use Rattle.std.specs.Prelude.{◌≡◌};
ghost use Rattle.frac_core.specs.Fraction.{plus, times};
ghost use Rattle.frac_core.specs.Results.{narrow};

use frac_core::{Frac, FracFail};

/// The sum of two numbers, or `Wide` where it passes the bound.
pub(crate) fn plus(a: Frac, b: Frac) -> Result<Frac, FracFail>
    ensures { result ≡ narrow (plus a b) }
{
    if a.same(Frac::zero()) {
        return held(b);
    }
    a.add(b)
}

/// The product of two numbers, or `Wide` where it passes the bound.
pub(crate) fn times(a: Frac, b: Frac) -> Result<Frac, FracFail>
    ensures { result ≡ narrow (times a b) }
{
    if a.same(Frac::one()) {
        return held(b);
    }
    a.mul(b)
}

/// A number that the code holds, which is never wide.
fn held(x: Frac) -> Result<Frac, FracFail>
    ensures { result ≡ narrow x }
{
    let _num = x.num();
    Ok(x)
}
