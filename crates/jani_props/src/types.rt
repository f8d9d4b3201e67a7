// The faults of the types of properties.
ghost use Rattle.std.specs.Prelude.{◌≡◌, map, IfOk, None};
ghost use Rattle.bridge_io.specs.declared.reason.Reason.TheVariants.{NotConstant};
ghost use Rattle.op_trees.specs.Tree.{tree};
ghost use Rattle.op_trees.specs.Names.{offset_of, some_name};
ghost use Rattle.name_rules.specs.Least.{fault_if, soonest};
ghost use Rattle.jani_props.specs.Faults.{types_wrong, varies};
ghost use Rattle.jani_props.specs.Model.{things_of};
ghost use Rattle.jani_props.specs.Syntax.{written_of};

use crate::model::ModelNames;
use crate::roles::{PartRule, judge_parts};
use crate::written::Written;
use bridge_io::{Fault, Reason};
use jani_check::judge_type;
use jani_tree::JaniExpr;
use name_rules::{Judged, Rule, Telling, judge_each, some_name, sooner_if};
use op_trees::offset_of;
use prop_trees::{Role, wanted_of};
use std::alloc::Global;

// Names of what varies.
#[derive(Clone, Copy)]
struct Varying<'n, 'a> {
    names: &'n ModelNames<'a>,
}

impl<'n, 'a> Telling for Varying<'n, 'a> {
    ghost use Rattle.jani_props.specs.Faults.{varies};
    ghost use Rattle.jani_props.specs.Model.{things_of};

    ghost tells = { λ v. varies (things_of v.names.now) };

    fn tells(&self, name: &str) -> bool {
        self.names.varies(name)
    }
}

/// Expressions of wrong types, and bounds that vary.
#[derive(Drop)]
pub(crate) struct WrongTypes<'n, 'a> {
    pub(crate) names: &'n ModelNames<'a>,
}

fn judge_bound(names: &ModelNames, e: &JaniExpr, best: Option<Fault>) -> Option<Fault>
    ensures { result
        ≡ soonest best (fault_if (some_name (varies (things_of names.now)) (tree e.now)) (offset_of (tree e.now)) NotConstant) }
{
    sooner_if(
        some_name(&Varying { names }, e),
        offset_of(e),
        Reason::NotConstant,
        best,
    )
}

impl<'n, 'a> PartRule for WrongTypes<'n, 'a> {
    ghost use Rattle.jani_props.specs.Faults.{wrong_in};
    ghost use Rattle.jani_props.specs.Model.{things_of};

    ghost part_faults = { λ r. wrong_in (things_of r.names.now) };

    #[tactic(auto, using(name_rules::proofs::Append::soonest_then))]
    fn judge_part(&self, role: Role, e: &JaniExpr, best: Option<Fault>) -> Option<Fault> {
        let typed = judge_type(self.names, wanted_of(role), e, best);
        match role {
            Role::State => typed,
            Role::Steps => judge_bound(self.names, e, typed),
            Role::Probability => judge_bound(self.names, e, typed),
        }
    }
}

impl<'n, 'a> Rule<Written> for WrongTypes<'n, 'a> {
    ghost use Rattle.jani_props.specs.Faults.{wrong_types};
    ghost use Rattle.jani_props.specs.Model.{things_of};
    ghost use Rattle.jani_props.specs.Syntax.{Written as OneWritten, written_of};

    ghost Seen = { OneWritten };

    ghost view = { written_of };

    ghost faults = { λ r. wrong_types (things_of r.names.now) };

    fn judge(&self, _alloc: Global, p: &Written, before: Option<Fault>) -> Judged {
        Ok(judge_parts(self, p, before))
    }
}

/// The least fault of the types of properties.
pub(crate) fn judge_types(alloc: Global, names: &ModelNames, written: &[Written]) -> Judged
    ensures { IfOk result
        (λ best. best ≡ soonest None (types_wrong (things_of names.now) (map written_of written.now))) }
{
    judge_each(alloc, &WrongTypes { names }, written, None)
}
