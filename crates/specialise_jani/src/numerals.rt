// How JANI writes whole numbers and quotients.

ghost use Rattle.std.specs.Prelude.{◌≡◌, IfOk};
ghost use Rattle.op_trees.specs.Tree.{tree};
ghost use Rattle.specialise_jani.specs.Literal.{whole_tree};

use constant_folding::{Numerals, whole_literal};
use jani_tree::{JaniExpr, JaniOp};
use op_trees::Expr;
use std::alloc::{AllocError, Global};

/// The numerals of JANI: a negative one is a negative literal.
#[derive(Clone, Copy)]
pub struct JaniNumerals;

impl Numerals<JaniOp> for JaniNumerals {
    ghost use Rattle.std.specs.Prelude.{◌≡◌, IfOk};
    ghost use Rattle.op_trees.specs.Tree.{tree};
    ghost use Rattle.jani_table.specs.declared.operator.JaniOp.TheVariants.{Div};
    ghost use Rattle.specialise_jani.specs.Literal.{whole_tree};

    ghost whole = { whole_tree };

    fn whole(alloc: Global, real: bool, n: i64) -> Result<JaniExpr, AllocError>
        ensures { IfOk result (λ r. tree r ≡ whole_tree real n) }
    {
        whole_tree(alloc, real, n)
    }

    ghost quotient = { Div };

    fn quotient() -> JaniOp
        ensures { result ≡ Div }
    {
        JaniOp::Div
    }

    ghost use Rattle.specialise_jani.specs.LiteralLaws.{jani_divides, jani_monotone, jani_numerals};

    ghost numerals = { jani_numerals };

    ghost divides = { jani_divides };

    ghost monotone = { jani_monotone };
}

/// A whole number, as a real literal or an int; a negative one is a negative literal.
#[tactic(auto, using(crate::specs::LiteralLaws::low_tree, crate::specs::LiteralLaws::high_tree))]
fn whole_tree(alloc: Global, real: bool, n: i64) -> Result<JaniExpr, AllocError>
    ensures { IfOk result (λ r. tree r ≡ whole_tree real n) }
{
    if n < 0 {
        Ok(Expr::Number(0, whole_literal(real, true, n.unsigned_abs())))
    } else {
        Ok(Expr::Number(0, whole_literal(real, false, n.unsigned_abs())))
    }
}
