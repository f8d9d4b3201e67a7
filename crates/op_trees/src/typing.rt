// Types of expressions.

ghost use Rattle.std.specs.Prelude.{◌≡◌, MatchResult, None, Some};
ghost use Rattle.op_trees.specs.Tree.{tree};
ghost use Rattle.op_trees.specs.Types.{IsLeast, lesser, misfits, type_in, typed, typed_one, typed_two, typed_three};

use crate::operator::{Names, Operator};
use crate::tree::{Expr, Ty};

/// The type of an expression; `Err` gives the least offset of a node whose operands have types and
/// which has none. A name that has no type is such a node.
pub fn type_of<O: Operator, N: Names>(e: &Expr<O>, names: &N) -> Result<Ty, usize>
    ensures { let types = N.types names.now in
        MatchResult result
        (λ t. type_in O.meaning types (tree e.now) ≡ Some t)
        (λ at. IsLeast at (misfits O.meaning types (tree e.now))) }
{
    type_or_misfit(e, names)
}

/// The same by recursion.
fn type_or_misfit<O: Operator, N: Names>(e: &Expr<O>, names: &N) -> Result<Ty, usize>
    ensures { result ≡ typed O.meaning (N.types names.now) (tree e.now) }
{
    match e {
        Expr::Truth(_, _) => Ok(Ty::Bool),
        Expr::Number(_, d) => Ok(if d.real { Ty::Real } else { Ty::Int }),
        Expr::Name(at, x) => names.ty(x.as_str()).ok_or(*at),
        Expr::One(at, o, a) => type_of_one(*at, *o, type_or_misfit(a, names)),
        Expr::Two(at, o, a, b) => {
            let second = type_or_misfit(b, names);
            type_of_two(*at, *o, type_or_misfit(a, names), second)
        }
        Expr::Three(at, o, a, b, c) => {
            let second = type_or_misfit(b, names);
            let third = type_or_misfit(c, names);
            type_of_three(*at, *o, type_or_misfit(a, names), second, third)
        }
    }
}

/// The type of a node over an operand of this type; or the least misfit.
fn type_of_one<O: Operator>(at: usize, o: O, a: Result<Ty, usize>) -> Result<Ty, usize>
    ensures { result ≡ typed_one (λ x. O.meaning.sort o x None None) at a }
{
    o.sort(a?, None, None).ok_or(at)
}

/// The same over two operands.
fn type_of_two<O: Operator>(
    at: usize,
    o: O,
    a: Result<Ty, usize>,
    b: Result<Ty, usize>,
) -> Result<Ty, usize>
    ensures { result ≡ typed_two (λ x y. O.meaning.sort o x (Some y) None) at a b }
{
    match (a, b) {
        (Ok(x), Ok(y)) => o.sort(x, Some(y), None).ok_or(at),
        (x, y) => least(x, y),
    }
}

/// The same over three operands.
fn type_of_three<O: Operator>(
    at: usize,
    o: O,
    a: Result<Ty, usize>,
    b: Result<Ty, usize>,
    c: Result<Ty, usize>,
) -> Result<Ty, usize>
    ensures { result ≡ typed_three (λ x y z. O.meaning.sort o x (Some y) (Some z)) at a b c }
{
    match (a, b, c) {
        (Ok(x), Ok(y), Ok(z)) => o.sort(x, Some(y), Some(z)).ok_or(at),
        (x, y, z) => least(x, least(y, z)),
    }
}

/// The lesser of two misfits, or the one that there is.
fn least(a: Result<Ty, usize>, b: Result<Ty, usize>) -> Result<Ty, usize>
    ensures { result ≡ lesser a b }
{
    match (a, b) {
        (Err(i), Err(j)) => Err(i.min(j)),
        (Err(i), Ok(_)) => Err(i),
        (Ok(_), b) => b,
    }
}
