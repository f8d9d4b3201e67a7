// The loops of an element: one for each action that it accepts everywhere, and each location.

ghost use Rattle.std.specs.Prelude.{◌≡◌, ◌++◌, IfOk, IsOkAnd, OnOk, map};
ghost use Rattle.std.specs.Option.{option_map};
ghost use Rattle.op_trees.specs.Tree.{tree};
ghost use Rattle.gathering.specs.Lists.{list_under};
ghost use Rattle.jani_tree.specs.Syntax.{automaton_of, destination_of, edge_of, location_of};
ghost use Rattle.jani_meaning.specs.Loops.{loops, none_of, or_true};
ghost use Rattle.jani_loops.specs.Looped.{beside, guards, lent_edge, loop_with, some_of, staying};

use crate::edges::{edges_by_action, edges_by_location};
use bridge_io::{List, Named, together};
use gathering::{NameLists, one_of};
use jani_tree::{
    JaniAutomaton, JaniDestination, JaniEdge, JaniExpr, JaniLocation, JaniOp, copy_name,
};
use op_trees::{Expr, copy_expr, one, two};
use std::alloc::{AllocError, Global};

// ---- guards

/// The guard of an edge; a missing one is true.
fn guard_of(alloc: Global, e: &JaniEdge) -> Result<JaniExpr, AllocError>
    ensures { IfOk result (λ g. tree g ≡ or_true (edge_of e.now).guard) }
{
    match &e.guard {
        Some(g) => copy_expr(alloc, g),
        None => Ok(Expr::Truth(0, true)),
    }
}

/// A guard beside those before it, if there are any.
fn joined(
    alloc: Global,
    before: Option<JaniExpr>,
    guard: Result<JaniExpr, AllocError>,
) -> Result<JaniExpr, AllocError>
    ensures { IfOk result (λ r. IsOkAnd guard (λ g. tree r ≡ beside (option_map tree before) (tree g))) }
{
    match before {
        Some(b) => two(alloc, 0, JaniOp::Or, Ok(b), guard),
        None => guard,
    }
}

/// What holds where one of the guards does; none where there are no edges.
fn some_guard(alloc: Global, edges: &[&JaniEdge]) -> Result<Option<JaniExpr>, AllocError>
    ensures { IfOk result (λ g. option_map tree g ≡ some_of (guards (map lent_edge edges.now))) }
{
    let mut all = None;
    for e in edges {
        let next = joined(alloc, all, guard_of(alloc, e))?;
        all = Some(next);
    }
    Ok(all)
}

/// What holds where none of the guards does; none where there are no edges.
fn no_guard(alloc: Global, edges: &[&JaniEdge]) -> Result<Option<JaniExpr>, AllocError>
    ensures { IfOk result (λ g. option_map tree g ≡ none_of (guards (map lent_edge edges.now))) }
{
    match some_guard(alloc, edges)? {
        Some(g) => Ok(Some(one(alloc, 0, JaniOp::Not, Ok(g))?)),
        None => Ok(None),
    }
}

// ---- loops

/// The one destination of a loop.
fn staying(alloc: Global, location: &Named) -> Result<JaniDestination, AllocError>
    ensures { IfOk result (λ d. destination_of d ≡ staying location.now) }
{
    let location = copy_name(alloc, location)?;
    Ok(JaniDestination {
        location,
        weight: None,
        writes: List::new(alloc),
    })
}

/// The loop with an action at a location, where these are the automaton's edges with that action there. `Err` is want of memory.
pub fn loop_at(
    alloc: Global,
    action: &Named,
    location: &Named,
    edges: &[&JaniEdge],
) -> Result<JaniEdge, AllocError>
    ensures { IfOk result (λ e. edge_of e ≡ loop_with action.now location.now (map lent_edge edges.now)) }
{
    let destinations = one_of(alloc, staying(alloc, location));
    let step = together(no_guard(alloc, edges), destinations);
    let names = together(copy_name(alloc, location), copy_name(alloc, action));
    let ((from, label), (guard, destinations)) = together(names, step)?;
    Ok(JaniEdge {
        location: from,
        action: Some(label),
        guard,
        destinations,
        at: action.at,
    })
}

/// Adds the loops with an action, where these are the edges with it by their locations, each of at most so many edges.
fn add_loops_with(
    alloc: Global,
    all: &mut List<JaniEdge>,
    action: &Named,
    locations: &[JaniLocation],
    edges: &NameLists<&JaniEdge>,
    most: usize,
) -> Result<(), AllocError>
    ensures { OnOk result
        (map edge_of all.new ≡ map edge_of all.old ++ map (λ l. loop_with action.now l.name (map lent_edge (list_under edges.now l.name.name))) (map location_of locations.now)) }
{
    for l in locations {
        let these = edges.get(l.name.name.as_str());
        if these.len() > most {
            return Err(AllocError);
        }
        let made = loop_at(alloc, action, &l.name, these)?;
        all.push(made)?;
    }
    Ok(())
}

/// Adds the loops of an automaton for these actions at the end of a list of edges, each of at most so many edges.
pub(crate) fn add_loops(
    alloc: Global,
    all: &mut List<JaniEdge>,
    a: &JaniAutomaton,
    actions: &[Named],
    most: usize,
) -> Result<(), AllocError>
    ensures { OnOk result (map edge_of all.new ≡ map edge_of all.old ++ loops actions.now (automaton_of a.now)) }
{
    let acting = edges_by_action(alloc, a.edges.as_slice())?;
    for x in actions {
        let here = edges_by_location(alloc, acting.get(x.name.as_str()))?;
        add_loops_with(alloc, all, x, a.locations.as_slice(), &here, most)?;
    }
    Ok(())
}
