// The bounds and state formulas of properties, as one list.

ghost use Rattle.std.specs.Prelude.{◌≡◌, ◌++◌, [], ◌∷◌, map, IfOk, OnOk};
ghost use Rattle.op_trees.specs.Tree.{tree};
ghost use Rattle.prop_grammar.specs.Syntax.{ask_of, path_of, written_of};
ghost use Rattle.prop_trees.specs.PrismFaults.{all_parts};
ghost use Rattle.prop_trees.specs.Trees.{ask_parts, path_parts};
ghost use Rattle.prop_trees.specs.Syntax.{role_of};
ghost use Rattle.prop_check.specs.Views.{part_of, states};

use prism_tree::PrismExpr;
use prop_grammar::{PathForm, Query, Written};
use prop_trees::Role;
use std::alloc::{AllocError, Global};

/// An expression of a property.
#[derive(Clone, Copy)]
pub(crate) struct Part<'a> {
    pub(crate) role: Role,
    pub(crate) e: &'a PrismExpr,
}

/// Those of these properties, in their order. `Err` is want of memory.
pub(crate) fn parts_of(alloc: Global, all: &[Written]) -> Result<Vec<Part>, AllocError>
    ensures { IfOk result (λ list. map part_of list.items ≡ all_parts (map written_of all.now)) }
{
    let mut list = Vec::with_capacity(alloc, all.len())?;
    for p in all {
        add_parts(p, &mut list)?;
    }
    Ok(list)
}

// Those of a property.
fn add_parts<'a>(p: &'a Written, list: &mut Vec<Part<'a>>) -> Result<(), AllocError>
    ensures { OnOk result
        (map part_of list.new.items ≡ map part_of list.old.items ++ (ask_parts (ask_of p.now.ask) ++ path_parts (path_of p.now.path))) }
{
    add_ask_parts(&p.ask, list)?;
    add_path_parts(&p.path, list)
}

fn add_ask_parts<'a>(ask: &'a Query, list: &mut Vec<Part<'a>>) -> Result<(), AllocError>
    ensures { OnOk result (map part_of list.new.items ≡ map part_of list.old.items ++ ask_parts (ask_of ask.now)) }
{
    match ask {
        Query::PBound(_, e) => add(Role::Probability, e, list),
        Query::PMax | Query::PMin | Query::RMax(_) | Query::RMin(_) => Ok(()),
    }
}

fn add_path_parts<'a>(path: &'a PathForm, list: &mut Vec<Part<'a>>) -> Result<(), AllocError>
    ensures { OnOk result (map part_of list.new.items ≡ map part_of list.old.items ++ path_parts (path_of path.now)) }
{
    match path {
        PathForm::Finally(e) => add(Role::State, e, list),
        PathForm::Globally(e) => add(Role::State, e, list),
        PathForm::Until(a, b) => add_states(a, b, list),
        PathForm::WeakUntil(a, b) => add_states(a, b, list),
        PathForm::FinallyWithin(k, e) => {
            add(Role::Steps, k, list)?;
            add(Role::State, e, list)
        }
        PathForm::UntilWithin(k, a, b) => {
            add(Role::Steps, k, list)?;
            add_states(a, b, list)
        }
    }
}

fn add_states<'a>(
    a: &'a PrismExpr,
    b: &'a PrismExpr,
    list: &mut Vec<Part<'a>>,
) -> Result<(), AllocError>
    ensures { OnOk result
        (map part_of list.new.items ≡ map part_of list.old.items ++ states (tree a.now) (tree b.now)) }
{
    add(Role::State, a, list)?;
    add(Role::State, b, list)
}

fn add<'a>(role: Role, e: &'a PrismExpr, list: &mut Vec<Part<'a>>) -> Result<(), AllocError>
    ensures { OnOk result (map part_of list.new.items ≡ map part_of list.old.items ++ (role_of role, tree e.now) ∷ []) }
{
    list.push(Part { role, e })?;
    Ok(())
}
