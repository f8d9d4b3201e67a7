// Transient variables that are read, and labels that edges assign.

ghost use Rattle.std.specs.Prelude.{◌≡◌};
ghost use Rattle.std.specs.List.{flat_map};
ghost use Rattle.op_trees.specs.Tree.{tree};
ghost use Rattle.name_rules.specs.Least.{soonest};
ghost use Rattle.jani_tree.specs.Syntax.{write_of};
ghost use Rattle.jani_check.specs.Demands.{assigned};
ghost use Rattle.op_trees.specs.Names.{names_of};
ghost use Rattle.jani_check.specs.ProfileFaults.{demand_profile, read_fault};
ghost use Rattle.jani_check.specs.Scopes.{scope_thing};
ghost use Rattle.jani_check.specs.Things.{is_label};
ghost use Rattle.jani_check.specs.Views.{demand_by};

use crate::demands::Demand;
use crate::things::{Scope, Thing};
use crate::typing::is_transient;
use bridge_io::{Fault, Reason};
use jani_tree::{JaniExpr, JaniWrite};
use name_rules::sooner_if;
use op_trees::{Expr, Ty};

/// The least of a fault that was found before and those of what an expression reads and an edge assigns.
pub(crate) fn judge_read(scope: &Scope, demand: &Demand, best: Option<Fault>) -> Option<Fault>
    ensures { result ≡ soonest best (demand_profile (scope_thing scope.now) (demand_by demand.now)) }
{
    match demand {
        Demand::Fixed(_, e) => judge_expression(scope, e, best),
        Demand::Varying(_, e) => judge_expression(scope, e, best),
        Demand::Assigned(write) => judge_assigned(scope, write, best),
        Demand::Given(write) => judge_expression(scope, &write.value, best),
    }
}

fn judge_assigned(scope: &Scope, write: &JaniWrite, best: Option<Fault>) -> Option<Fault>
    ensures { result ≡ soonest best (demand_profile (scope_thing scope.now) (assigned (write_of write.now))) }
{
    let label = is_label(scope.thing(write.target.name.as_str()));
    let first = sooner_if(label, write.target.at, Reason::LabelOnEdge, best);
    judge_expression(scope, &write.value, first)
}

/// Whether it is a transient variable that is a truth value.
pub fn is_label(thing: Option<Thing>) -> bool
    ensures { result ≡ is_label thing }
{
    matches!(thing, Some(Thing::Transient(Ty::Bool)))
}

#[tactic(auto, using(name_rules::proofs::Append::soonest_both, name_rules::proofs::Append::soonest_three))]
fn judge_expression(scope: &Scope, e: &JaniExpr, best: Option<Fault>) -> Option<Fault>
    ensures { result ≡ soonest best (flat_map (read_fault (scope_thing scope.now)) (names_of (tree e.now))) }
{
    match e {
        Expr::Truth(_, _) => best,
        Expr::Number(_, _) => best,
        Expr::Name(at, name) => {
            let read = is_transient(scope.thing(name.as_str()));
            sooner_if(read, *at, Reason::TransientRead, best)
        }
        Expr::One(_, _, a) => judge_expression(scope, a, best),
        Expr::Two(_, _, a, b) => {
            let first = judge_expression(scope, a, best);
            judge_expression(scope, b, first)
        }
        Expr::Three(_, _, a, b, c) => {
            let first = judge_expression(scope, a, best);
            let second = judge_expression(scope, b, first);
            judge_expression(scope, c, second)
        }
    }
}
