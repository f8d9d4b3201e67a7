// Names that are not declared.

ghost use Rattle.std.specs.Prelude.{◌≡◌, map};
ghost use Rattle.std.specs.List.{flat_map};
ghost use Rattle.name_rules.specs.Least.{soonest};
ghost use Rattle.prism_check.specs.NameFaults.{unknown_by};
ghost use Rattle.name_rules.specs.Names.{has_name};
ghost use Rattle.prism_check.specs.Views.{demand_by};

use crate::demands::Demand;
use bridge_io::Fault;
use name_rules::{NameSet, judge_expression, judge_name};

/// The least of a fault that was found before and those of the names in these demands that are not known.
pub(crate) fn judge_unknown(
    known: &NameSet,
    demands: &[Demand],
    before: Option<Fault>,
) -> Option<Fault>
    ensures { result ≡ soonest before (flat_map (unknown_by (has_name known.now)) (map demand_by demands.now)) }
{
    let mut best = before;
    for demand in demands {
        best = judge_demand(known, demand, best);
    }
    best
}

fn judge_demand(known: &NameSet, demand: &Demand, best: Option<Fault>) -> Option<Fault>
    ensures { result ≡ soonest best (unknown_by (has_name known.now) (demand_by demand.now)) }
{
    match demand {
        Demand::Fixed(_, e) => judge_expression(known, e, best),
        Demand::Varying(_, e) => judge_expression(known, e, best),
        Demand::Written(_, write) => {
            let best = judge_name(known, write.name.name.as_str(), write.name.at, best);
            judge_expression(known, &write.value, best)
        }
    }
}
