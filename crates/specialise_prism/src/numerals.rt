// How PRISM writes whole numbers and quotients.

ghost use Rattle.std.specs.Prelude.{◌≡◌, IfOk};
ghost use Rattle.op_trees.specs.Tree.{tree};
ghost use Rattle.specialise_prism.specs.Literal.{whole_tree};

use constant_folding::{Numerals, whole_literal};
use op_trees::{Expr, one};
use prism_tree::{PrismExpr, PrismOp};
use std::alloc::{AllocError, Global};

/// The numerals of PRISM: a negative one has a minus sign.
#[derive(Clone, Copy)]
pub struct PrismNumerals;

impl Numerals<PrismOp> for PrismNumerals {
    ghost use Rattle.std.specs.Prelude.{◌≡◌, IfOk};
    ghost use Rattle.op_trees.specs.Tree.{tree};
    ghost use Rattle.prism_tree.specs.declared.operator.PrismOp.TheVariants.{Div};
    ghost use Rattle.specialise_prism.specs.Literal.{whole_tree};

    ghost whole = { whole_tree };

    fn whole(alloc: Global, real: bool, n: i64) -> Result<PrismExpr, AllocError>
        ensures { IfOk result (λ r. tree r ≡ whole_tree real n) }
    {
        whole_tree(alloc, real, n)
    }

    ghost quotient = { Div };

    fn quotient() -> PrismOp
        ensures { result ≡ Div }
    {
        PrismOp::Div
    }

    ghost use Rattle.specialise_prism.specs.LiteralLaws.{prism_divides, prism_monotone, prism_numerals};

    ghost numerals = { prism_numerals };

    ghost divides = { prism_divides };

    ghost monotone = { prism_monotone };
}

/// A whole number, as a real literal or an int; a negative one has a minus sign.
#[tactic(auto, using(crate::specs::LiteralLaws::low_tree, crate::specs::LiteralLaws::high_tree))]
fn whole_tree(alloc: Global, real: bool, n: i64) -> Result<PrismExpr, AllocError>
    ensures { IfOk result (λ r. tree r ≡ whole_tree real n) }
{
    let number = Expr::Number(0, whole_literal(real, false, n.unsigned_abs()));
    if n < 0 {
        one(alloc, 0, PrismOp::Neg, Ok(number))
    } else {
        Ok(number)
    }
}
