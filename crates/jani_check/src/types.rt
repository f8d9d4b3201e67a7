// The faults of types.

ghost use Rattle.std.specs.Prelude.{◌≡◌, IfOk};
ghost use Rattle.name_rules.specs.Least.{soonest};
ghost use Rattle.jani_tree.specs.Syntax.{file_of};
ghost use Rattle.jani_check.specs.TypeFaults.{type_faults};

use crate::clashes::judge_clashes;
use crate::demands::Demand;
use crate::elements::shared_of;
use crate::kinds::judge_kind;
use crate::phase::{Phase, judge_phase};
use crate::things::{Scope, Things};
use crate::typing::judge_type_of;
use crate::writes::judge_repeats;
use bridge_io::Fault;
use jani_tree::{JaniAutomaton, JaniFile, JaniVar};
use name_rules::Judged;
use std::alloc::Global;

/// The least of a fault that was found before and those of types and of what is assigned.
pub(crate) fn judge_types(alloc: Global, file: &JaniFile, before: Option<Fault>) -> Judged
    ensures { IfOk result (λ best. best ≡ soonest before (type_faults (file_of file.now))) }
{
    let global = Things::global(alloc, file)?;
    let typed = judge_phase(alloc, &Types, file, &global, before)?;
    let elements = shared_of(alloc, file, &global)?;
    judge_clashes(alloc, &elements, file.vectors.as_slice(), typed)
}

// The kinds of variables, the types of expressions, and what is assigned twice.
#[derive(Drop)]
struct Types;

impl Phase for Types {
    ghost use Rattle.jani_check.specs.TypeFaults.{demand_faults, repeated_writes, var_faults};

    ghost of_var = { var_faults };

    ghost of_demand = { demand_faults };

    ghost of_rest = { λ p things a. repeated_writes a };

    fn judge_var(&self, var: &JaniVar, best: Option<Fault>) -> Option<Fault> {
        judge_kind(var, best)
    }

    fn judge_demand(&self, scope: &Scope, demand: &Demand, best: Option<Fault>) -> Option<Fault> {
        judge_type_of(scope, demand, best)
    }

    fn judge_rest(
        &self,
        alloc: Global,
        _scope: &Scope,
        a: &JaniAutomaton,
        best: Option<Fault>,
    ) -> Judged {
        judge_repeats(alloc, a, best)
    }
}
