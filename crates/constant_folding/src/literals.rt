// Literals of values.

ghost use Rattle.std.specs.Prelude.{◌≡◌, ℤ, Bool, IfOk};
ghost use Rattle.op_trees.specs.Tree.{Tree, tree};
ghost use Rattle.constant_folding.specs.Monotone.{IsMonotone};
ghost use Rattle.constant_folding.specs.ValueLiterals.{is_real, number_tree, quotient_tree, value_literal};
ghost use Rattle.constant_folding.specs.ValueLiteralLaws.{AreNumerals, IsQuotient};

use frac_core::Frac;
use op_trees::{Expr, Operator, Ty, Value, two};
use std::alloc::{AllocError, Global};

/// How a language writes whole numbers and quotients. Its laws: a number is worth itself, has its type and names nothing; the operator of quotients divides;
/// and a node over operands of lesser types, an int for a real, has a lesser type or the same.
pub trait Numerals<O: Operator> {
    ghost whole: { Bool → ℤ → Tree O };

    /// A whole number, as a real literal or an int. `Err` is want of memory.
    fn whole(alloc: Global, real: bool, n: i64) -> Result<Expr<O>, AllocError>
        ensures { IfOk result (λ r. tree r ≡ whole real n) };

    ghost quotient: { O };

    /// The operator of quotients.
    fn quotient() -> O
        ensures { result ≡ quotient };

    ghost numerals: { AreNumerals O.meaning whole };

    ghost divides: { IsQuotient O.meaning quotient };

    ghost monotone: { IsMonotone O.meaning };
}

/// The literal of a value and a type. `Err` is want of memory.
pub fn value_literal<O: Operator, N: Numerals<O>>(
    alloc: Global,
    value: Value,
    ty: Ty,
) -> Result<Expr<O>, AllocError>
    ensures { IfOk result (λ r. tree r ≡ value_literal N.whole N.quotient value ty) }
{
    match value {
        Value::Truth(b) => Ok(Expr::Truth(0, b)),
        Value::Number(q) => number_tree::<O, N>(alloc, q, ty),
    }
}

/// The literal of a number: a quotient of two ints where it isn't whole.
fn number_tree<O: Operator, N: Numerals<O>>(
    alloc: Global,
    q: Frac,
    ty: Ty,
) -> Result<Expr<O>, AllocError>
    ensures { IfOk result (λ r. tree r ≡ number_tree N.whole N.quotient q ty) }
{
    if q.is_whole() {
        return N::whole(alloc, is_real(ty), q.num());
    }
    let num = N::whole(alloc, false, q.num());
    let den = N::whole(alloc, false, q.den());
    two(alloc, 0, N::quotient(), num, den)
}

/// Whether it is the type of reals.
fn is_real(ty: Ty) -> bool
    ensures { result ≡ is_real ty }
{
    match ty {
        Ty::Real => true,
        Ty::Bool | Ty::Int => false,
    }
}
