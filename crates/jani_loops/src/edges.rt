// The edges of an automaton by their actions, and by the locations that they start at.

ghost use Rattle.std.specs.Prelude.{◌≡◌, ◌++◌, List, ℕ, IfOk, OnOk, map};
ghost use Rattle.std.specs.List.{filter};
ghost use Rattle.op_trees.specs.Names.{is_called};
ghost use Rattle.process_core.specs.Instance.{only_if};
ghost use Rattle.gathering.specs.Lists.{list_under};
ghost use Rattle.jani_tree.specs.Syntax.{edge_of};
ghost use Rattle.jani_meaning.specs.Loops.{has_name};
ghost use Rattle.jani_loops.specs.Looped.{lent_edge};

use gathering::NameLists;
use jani_tree::JaniEdge;
use std::alloc::{AllocError, Global};

/// The edges that have an action, by it.
pub fn edges_by_action<'a>(
    alloc: Global,
    edges: &'a [JaniEdge],
) -> Result<NameLists<'a, &'a JaniEdge>, AllocError>
    ensures { IfOk result (λ t. (x : List ℕ) → map lent_edge (list_under t x) ≡ filter (λ e. has_name x e.action) (map edge_of edges.entry.now)) }
{
    let mut all = NameLists::new(alloc);
    for e in edges {
        add_acting(alloc, &mut all, e)?;
    }
    Ok(all)
}

/// An edge besides, if it has an action.
fn add_acting<'a>(
    alloc: Global,
    all: &mut NameLists<'a, &'a JaniEdge>,
    e: &'a JaniEdge,
) -> Result<(), AllocError>
    ensures { OnOk result
        ((x : List ℕ) → list_under all.new x ≡ list_under all.old x ++ only_if (has_name x (edge_of e.entry.now).action) e.entry) }
{
    match &e.action {
        Some(name) => all.add(alloc, name.name.as_str(), e),
        None => Ok(()),
    }
}

/// The edges by the locations that they start at.
pub fn edges_by_location<'a>(
    alloc: Global,
    edges: &[&'a JaniEdge],
) -> Result<NameLists<'a, &'a JaniEdge>, AllocError>
    ensures { IfOk result (λ t. (x : List ℕ) → map lent_edge (list_under t x) ≡ filter (λ e. is_called x e.location) (map lent_edge edges.now)) }
{
    let mut all = NameLists::new(alloc);
    for e in edges {
        all.add(alloc, e.location.name.as_str(), *e)?;
    }
    Ok(all)
}
