// The kinds of variables.

ghost use Rattle.std.specs.Prelude.{◌≡◌};
ghost use Rattle.name_rules.specs.Least.{soonest};
ghost use Rattle.jani_tree.specs.Syntax.{kind_of, var_of};
ghost use Rattle.jani_check.specs.TypeFaults.{kind_fault, var_faults};

use bridge_io::{Fault, Reason};
use jani_tree::{JaniKind, JaniVar};
use name_rules::sooner;

/// The least of a fault that was found before and that of the kind of a variable.
pub(crate) fn judge_kind(var: &JaniVar, best: Option<Fault>) -> Option<Fault>
    ensures { result ≡ soonest best (var_faults (var_of var.now)) }
{
    match kind_fault(var.transient, &var.kind) {
        Some(reason) => sooner(best, var.kind_at, reason),
        None => best,
    }
}

// A transient variable has no bounds; another is a bool, or an int with both.
fn kind_fault(transient: bool, kind: &JaniKind) -> Option<Reason>
    ensures { result ≡ kind_fault transient (kind_of kind.now) }
{
    if transient {
        match kind {
            JaniKind::Bool => None,
            JaniKind::Int => None,
            JaniKind::Real => None,
            JaniKind::RealBounded => Some(Reason::LeftOut),
            JaniKind::OneSided => Some(Reason::LeftOut),
            JaniKind::Bounded(_, _) => Some(Reason::LeftOut),
        }
    } else {
        match kind {
            JaniKind::Bool => None,
            JaniKind::Int => Some(Reason::UnboundedVariable),
            JaniKind::Real => Some(Reason::RealVariable),
            JaniKind::RealBounded => Some(Reason::RealVariable),
            JaniKind::OneSided => Some(Reason::UnboundedVariable),
            JaniKind::Bounded(_, _) => None,
        }
    }
}
