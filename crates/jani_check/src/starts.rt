// The first values of transient variables.

ghost use Rattle.std.specs.Prelude.{◌≡◌};
ghost use Rattle.op_trees.specs.Tree.{tree};
ghost use Rattle.op_trees.specs.declared.tree.Ty.TheVariants.{Int};
ghost use Rattle.name_rules.specs.Least.{soonest};
ghost use Rattle.jani_tree.specs.Syntax.{var_of};
ghost use Rattle.jani_check.specs.ProfileFaults.{first_fault, is_first, start_faults};

use crate::things::kind_type;
use bridge_io::{Fault, Reason};
use jani_tree::{JaniExpr, JaniVar};
use name_rules::sooner_if;
use op_trees::{Expr, Ty, offset_of};

/// The least of a fault that was found before and that of the first value of a variable.
pub(crate) fn judge_start(var: &JaniVar, best: Option<Fault>) -> Option<Fault>
    ensures { result ≡ soonest best (start_faults (var_of var.now)) }
{
    if !var.transient {
        return best;
    }
    match &var.start {
        Some(e) => judge_first(kind_type(&var.kind), e, best),
        None => best,
    }
}

fn judge_first(ty: Ty, e: &JaniExpr, best: Option<Fault>) -> Option<Fault>
    ensures { result ≡ soonest best (first_fault ty (tree e.now)) }
{
    sooner_if(
        !is_first(ty, e),
        offset_of(e),
        Reason::TransientInitial,
        best,
    )
}

// Whether it is true or false, or a literal of value 0, as the type wants.
fn is_first(ty: Ty, e: &JaniExpr) -> bool
    ensures { result ≡ is_first ty (tree e.now) }
{
    match ty {
        Ty::Bool => matches!(e, Expr::Truth(_, _)),
        Ty::Int => is_zero(e),
        Ty::Real => is_zero(e),
    }
}

fn is_zero(e: &JaniExpr) -> bool
    ensures { result ≡ is_first Int (tree e.now) }
{
    match e {
        Expr::Number(_, d) => d.digits == 0,
        _ => false,
    }
}
