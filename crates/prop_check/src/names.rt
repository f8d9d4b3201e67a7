// The faults of names.

ghost use Rattle.std.specs.Prelude.{◌≡◌, map, IfOk, None};
ghost use Rattle.std.specs.List.{flat_map};
ghost use Rattle.basics.specs.Options.{if_some};
ghost use Rattle.name_rules.specs.Least.{soonest};
ghost use Rattle.name_rules.specs.Names.{named_by};
ghost use Rattle.prop_grammar.specs.Syntax.{ask_of, written_of};
ghost use Rattle.prop_trees.specs.PrismFaults.{all_parts, name_faults, structures, titles, unknown_in, unknown_structure};
ghost use Rattle.prop_trees.specs.Trees.{structure_of};
ghost use Rattle.prop_check.specs.Views.{part_of};

use crate::parts::Part;
use crate::scope::Scope;
use bridge_io::{Fault, Reason};
use name_rules::{Entry, judge_doubled, judge_expression, sooner_if};
use prop_grammar::{Query, Structure, Written};
use std::alloc::{AllocError, Global};

/// The least fault of the names of these properties, whose bounds and state formulas these parts are, if they have one. `Err` is want
/// of memory.
pub(crate) fn judge_names(
    alloc: Global,
    scope: &Scope,
    all: &[Written],
    parts: &[Part],
) -> Result<Option<Fault>, AllocError>
    requires { map part_of parts.now ≡ all_parts (map written_of all.now) }
    ensures { IfOk result (λ best. best ≡ soonest None (name_faults scope.now.file (map written_of all.now))) }
{
    let titles = titles(alloc, all)?;
    let doubled = judge_doubled(alloc, Reason::TwiceNamed, &titles, None)?;
    let structured = judge_structures(scope, all, doubled);
    Ok(judge_parts(scope, parts, structured))
}

// The names of the properties that have one.
fn titles(alloc: Global, all: &[Written]) -> Result<Vec<Entry>, AllocError>
    ensures { IfOk result (λ list. map named_by list.items ≡ titles (map written_of all.now)) }
{
    let mut list = Vec::new(alloc);
    for p in all {
        if let Some(name) = &p.name {
            list.push(Entry {
                name: name.name.as_str(),
                at: name.at,
            })?;
        }
    }
    Ok(list)
}

// The least of a fault that was found before and those of reward structures that the file has not.
fn judge_structures(scope: &Scope, all: &[Written], before: Option<Fault>) -> Option<Fault>
    ensures { result ≡ soonest before (flat_map (unknown_structure scope.now.file) (structures (map written_of all.now))) }
{
    let mut best = before;
    for p in all {
        best = judge_query(scope, &p.ask, best);
    }
    best
}

fn judge_query(scope: &Scope, ask: &Query, best: Option<Fault>) -> Option<Fault>
    ensures { result ≡ soonest best (flat_map (unknown_structure scope.now.file) (if_some (structure_of (ask_of ask.now)))) }
{
    match ask {
        Query::RMax(structure) => judge_structure(scope, structure, best),
        Query::RMin(structure) => judge_structure(scope, structure, best),
        Query::PMax | Query::PMin | Query::PBound(_, _) => best,
    }
}

fn judge_structure(scope: &Scope, structure: &Structure, best: Option<Fault>) -> Option<Fault>
    ensures { result ≡ soonest best (unknown_structure scope.now.file structure.now) }
{
    let is_unknown = scope.structure(structure).is_none();
    sooner_if(is_unknown, structure.at, Reason::Unknown, best)
}

// The least of a fault that was found before and those of names that the file has not.
fn judge_parts(scope: &Scope, parts: &[Part], before: Option<Fault>) -> Option<Fault>
    ensures { result ≡ soonest before (flat_map (unknown_in scope.now.file) (map part_of parts.now)) }
{
    let mut best = before;
    for part in parts {
        best = judge_expression(scope, part.e, best);
    }
    best
}
