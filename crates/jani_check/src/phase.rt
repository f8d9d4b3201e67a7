// Phases, each of which judges the variables, the demands and the automata of a file by faults of one kind.

ghost use Rattle.std.specs.Prelude.{◌≡◌, List, ℕ, Option, IfOk, map};
ghost use Rattle.std.specs.List.{flat_map};
ghost use Rattle.bridge_io.specs.declared.reason.Fault.{Fault as OneFault};
ghost use Rattle.name_rules.specs.Least.{soonest};
ghost use Rattle.jani_tree.specs.Syntax.{Automaton, Var, automaton_of, file_of, var_of};
ghost use Rattle.jani_check.specs.Demands.{Demand as Asked, outer_demands};
ghost use Rattle.jani_check.specs.Phases.{automaton_by, file_by};
ghost use Rattle.jani_check.specs.Scopes.{scope_thing, thing_under};
ghost use Rattle.jani_check.specs.Things.{global_thing};
ghost use Rattle.name_rules.specs.Names.{Name};
ghost use Rattle.jani_check.specs.Views.{demand_by};
ghost use Rattle.jani_check.specs.declared.things.Thing.{Thing as Known};

use crate::demands::{Demand, automaton_demands, outer_demands};
use crate::things::{Scope, Things};
use bridge_io::Fault;
use jani_tree::{JaniAutomaton, JaniFile, JaniVar};
use name_rules::Judged;
use std::alloc::Global;

/// The faults of one kind: those of a variable, those of a demand, by what names stand for, and those of what else stands in
/// an automaton.
pub(crate) trait Phase {
    ghost of_var: { Var → List OneFault };

    ghost of_demand: { (Name → Option Known) → Asked → List OneFault };

    ghost of_rest: { Self → (Name → Option Known) → Automaton → List OneFault };

    /// The least of a fault that was found before and those of a variable.
    fn judge_var(&self, var: &JaniVar, best: Option<Fault>) -> Option<Fault>
        ensures { result ≡ soonest best (of_var (var_of var.now)) };

    /// The least of a fault that was found before and those of a demand.
    fn judge_demand(&self, scope: &Scope, demand: &Demand, best: Option<Fault>) -> Option<Fault>
        ensures { result ≡ soonest best (of_demand (scope_thing scope.now) (demand_by demand.now)) };

    /// The least of a fault that was found before and those of what else stands in an automaton.
    fn judge_rest(
        &self,
        alloc: Global,
        scope: &Scope,
        a: &JaniAutomaton,
        best: Option<Fault>,
    ) -> Judged
        ensures { IfOk result (λ next. next ≡ soonest best (of_rest self.now (scope_thing scope.now) (automaton_of a.now))) };
}

/// The least of a fault that was found before and those of this kind in a file, whose constants and global variables are
/// these.
pub(crate) fn judge_phase<P: Phase>(
    alloc: Global,
    phase: &P,
    file: &JaniFile,
    global: &Things,
    before: Option<Fault>,
) -> Judged
    requires { (x : List ℕ) → thing_under global.now x ≡ global_thing (file_of file.now) x }
    ensures { IfOk result (λ best. best ≡ soonest before (file_by P.of_var P.of_demand (P.of_rest phase.now) (file_of file.now))) }
{
    let in_vars = judge_vars(phase, file.variables.as_slice(), before);
    let outside = judge_outside(alloc, phase, file, global, in_vars)?;
    judge_automata(alloc, phase, file.automata.as_slice(), global, outside)
}

fn judge_vars<P: Phase>(phase: &P, vars: &[JaniVar], before: Option<Fault>) -> Option<Fault>
    ensures { result ≡ soonest before (flat_map P.of_var (map var_of vars.now)) }
{
    let mut best = before;
    for var in vars {
        best = phase.judge_var(var, best);
    }
    best
}

fn judge_demands<P: Phase>(
    phase: &P,
    scope: &Scope,
    demands: &[Demand],
    before: Option<Fault>,
) -> Option<Fault>
    ensures { result ≡ soonest before (flat_map (P.of_demand (scope_thing scope.now)) (map demand_by demands.now)) }
{
    let mut best = before;
    for demand in demands {
        best = phase.judge_demand(scope, demand, best);
    }
    best
}

// The demands outside of automata.
fn judge_outside<P: Phase>(
    alloc: Global,
    phase: &P,
    file: &JaniFile,
    global: &Things,
    before: Option<Fault>,
) -> Judged
    ensures { IfOk result
        (λ best. best ≡ soonest before (flat_map (P.of_demand (thing_under global.now)) (outer_demands (file_of file.now)))) }
{
    let own = Things::own(alloc, &[])?;
    let scope = Scope { global, own };
    let demands = outer_demands(alloc, file)?;
    Ok(judge_demands(phase, &scope, &demands, before))
}

fn judge_automata<P: Phase>(
    alloc: Global,
    phase: &P,
    automata: &[JaniAutomaton],
    global: &Things,
    before: Option<Fault>,
) -> Judged
    ensures { IfOk result
        (λ best. best ≡ soonest before (flat_map (automaton_by P.of_var P.of_demand (P.of_rest phase.now) (thing_under global.now)) (map automaton_of automata.now))) }
{
    let mut best = before;
    for a in automata {
        best = judge_automaton(alloc, phase, a, global, best)?;
    }
    Ok(best)
}

fn judge_automaton<P: Phase>(
    alloc: Global,
    phase: &P,
    a: &JaniAutomaton,
    global: &Things,
    before: Option<Fault>,
) -> Judged
    ensures { IfOk result
        (λ best. best ≡ soonest before (automaton_by P.of_var P.of_demand (P.of_rest phase.now) (thing_under global.now) (automaton_of a.now))) }
{
    let in_vars = judge_vars(phase, a.variables.as_slice(), before);
    let own = Things::own(alloc, a.variables.as_slice())?;
    let scope = Scope { global, own };
    let demands = automaton_demands(alloc, a)?;
    let in_demands = judge_demands(phase, &scope, &demands, in_vars);
    phase.judge_rest(alloc, &scope, a, in_demands)
}
