// Properties judged against a model.

ghost use Rattle.std.specs.Prelude.{◌≡◌, List, map, IfOk, None};
ghost use Rattle.prop_grammar.specs.Syntax.{WrittenProperty, written_of};
ghost use Rattle.prop_trees.specs.PrismFaults.{all_parts, faults, size_faults, type_faults};
ghost use Rattle.name_rules.specs.Least.{soonest, or_else};
ghost use Rattle.prop_check.specs.Views.{part_of};

use crate::names::judge_names;
use crate::parts::{Part, parts_of};
use crate::scope::Scope;
use crate::sizes::judge_sizes;
use crate::types::judge_types;
use bridge_io::Fault;
use prop_grammar::Written;
use std::alloc::{AllocError, Global};

/// The least fault of the first phase in which these properties have any: names, then size, then types. `Err` is want of memory.
pub(crate) fn judge_properties(
    alloc: Global,
    scope: &Scope,
    all: &[Written],
) -> Result<Option<Fault>, AllocError>
    ensures { IfOk result (λ best. best ≡ soonest None (faults scope.now.file (map written_of all.now))) }
{
    let parts = parts_of(alloc, all)?;
    match judge_names(alloc, scope, all, &parts)? {
        Some(fault) => Ok(Some(fault)),
        None => Ok(judge_named(scope, &parts)),
    }
}

// The same where no name has a fault.
fn judge_named(scope: &Scope, parts: &[Part]) -> Option<Fault>
    ensures { (ps : List WrittenProperty) → map part_of parts.now ≡ all_parts ps
        → result ≡ soonest None (or_else (size_faults scope.now.file ps) (type_faults scope.now.file ps)) }
{
    match judge_sizes(scope, parts) {
        Some(fault) => Some(fault),
        None => judge_types(scope, parts),
    }
}
