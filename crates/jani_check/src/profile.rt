// The forms that PRISM has no words for.

ghost use Rattle.std.specs.Prelude.{◌≡◌, IfOk};
ghost use Rattle.name_rules.specs.Least.{soonest};
ghost use Rattle.jani_tree.specs.Syntax.{file_of};
ghost use Rattle.jani_check.specs.ProfileFaults.{profile_faults};

use crate::demands::Demand;
use crate::elements::rewarding_of;
use crate::given::judge_given;
use crate::phase::{Phase, judge_phase};
use crate::reads::judge_read;
use crate::rewards::BranchRewards;
use crate::starts::judge_start;
use crate::things::{Scope, Things};
use crate::writers::Writers;
use bridge_io::Fault;
use jani_tree::{JaniAutomaton, JaniFile, JaniVar};
use name_rules::{Judged, judge_each};
use std::alloc::Global;

/// The least of a fault that was found before and those of forms that PRISM has no words for.
pub(crate) fn judge_profile(alloc: Global, file: &JaniFile, before: Option<Fault>) -> Judged
    ensures { IfOk result (λ best. best ≡ soonest before (profile_faults (file_of file.now))) }
{
    let global = Things::global(alloc, file)?;
    let profiled = judge_phase(alloc, &Profile, file, &global, before)?;
    let given = judge_given(alloc, &global, file.automata.as_slice(), profiled)?;
    let elements = rewarding_of(alloc, file, &global)?;
    let writers = Writers {
        elements: &elements,
    };
    judge_each(alloc, &writers, file.vectors.as_slice(), given)
}

// First values of transient variables, what is read, and rewards that differ between destinations.
#[derive(Drop)]
struct Profile;

impl Phase for Profile {
    ghost use Rattle.std.specs.List.{flat_map};
    ghost use Rattle.jani_check.specs.ProfileFaults.{branch_rewards, demand_profile, start_faults};

    ghost of_var = { start_faults };

    ghost of_demand = { demand_profile };

    ghost of_rest = { λ p things a. flat_map (branch_rewards things) a.edges };

    fn judge_var(&self, var: &JaniVar, best: Option<Fault>) -> Option<Fault> {
        judge_start(var, best)
    }

    fn judge_demand(&self, scope: &Scope, demand: &Demand, best: Option<Fault>) -> Option<Fault> {
        judge_read(scope, demand, best)
    }

    fn judge_rest(
        &self,
        alloc: Global,
        scope: &Scope,
        a: &JaniAutomaton,
        best: Option<Fault>,
    ) -> Judged {
        judge_each(alloc, &BranchRewards { scope }, a.edges.as_slice(), best)
    }
}
