// The faults of types.

ghost use Rattle.std.specs.Prelude.{◌≡◌, map, None};
ghost use Rattle.std.specs.List.{flat_map};
ghost use Rattle.bridge_io.specs.declared.reason.Reason.TheVariants.{NotConstant};
ghost use Rattle.op_trees.specs.Names.{offset_of};
ghost use Rattle.op_trees.specs.Tree.{tree};
ghost use Rattle.name_rules.specs.Least.{fault_if, soonest};
ghost use Rattle.prop_trees.specs.PrismFaults.{part_faults, type_faults_of, varies};
ghost use Rattle.prop_trees.specs.Syntax.{role_of};
ghost use Rattle.prop_check.specs.Views.{part_of};

use crate::labels::has_quotes;
use crate::parts::Part;
use crate::scope::Scope;
use bridge_io::{Fault, Reason};
use name_rules::{Telling, some_name, sooner, sooner_if};
use op_trees::{is_wanted, offset_of, type_of};
use prism_tree::PrismExpr;
use prop_trees::{Role, wanted_of};

/// The least fault of the types of these bounds and state formulas, if they have one.
pub(crate) fn judge_types(scope: &Scope, parts: &[Part]) -> Option<Fault>
    ensures { result ≡ soonest None (flat_map (part_faults scope.now.file) (map part_of parts.now)) }
{
    let mut best = None;
    for part in parts {
        best = judge_part(scope, part, best);
    }
    best
}

fn judge_part(scope: &Scope, part: &Part, best: Option<Fault>) -> Option<Fault>
    ensures { result ≡ soonest best (part_faults scope.now.file (part_of part.now)) }
{
    let typed = judge_type(scope, part.role, part.e, best);
    match part.role {
        Role::State => typed,
        Role::Steps => judge_constant(scope, part.e, typed),
        Role::Probability => judge_constant(scope, part.e, typed),
    }
}

fn judge_type(scope: &Scope, role: Role, e: &PrismExpr, best: Option<Fault>) -> Option<Fault>
    ensures { result ≡ soonest best (type_faults_of scope.now.file (role_of role) (tree e.now)) }
{
    match type_of(e, scope) {
        Ok(ty) => {
            let is_unwanted = !is_wanted(wanted_of(role), ty);
            sooner_if(is_unwanted, offset_of(e), Reason::WrongType, best)
        }
        Err(at) => sooner(best, at, Reason::WrongType),
    }
}

// A bound names constants alone.
fn judge_constant(scope: &Scope, e: &PrismExpr, best: Option<Fault>) -> Option<Fault>
    ensures { result ≡ soonest best (fault_if (varies scope.now.file (tree e.now)) (offset_of (tree e.now)) NotConstant) }
{
    sooner_if(
        is_varying(scope, e),
        offset_of(e),
        Reason::NotConstant,
        best,
    )
}

// Whether it names a label, or a variable where its formulas are written out.
fn is_varying(scope: &Scope, e: &PrismExpr) -> bool
    ensures { result ≡ varies scope.now.file (tree e.now) }
{
    some_name(&Labels, e) || scope.varies(e)
}

// Names of labels.
#[derive(Drop)]
struct Labels;

impl Telling for Labels {
    ghost use Rattle.prop_grammar.specs.Grammar.{has_quotes};

    ghost tells = { λ l. has_quotes };

    fn tells(&self, name: &str) -> bool {
        has_quotes(name)
    }
}
