// The global variables that the edges of an automaton assign, by the actions of the edges.

ghost use Rattle.std.specs.Prelude.{◌≡◌, List, ℕ, ◌++◌, map, IfOk, OnOk};
ghost use Rattle.std.specs.List.{filter, flat_map};
ghost use Rattle.jani_tree.specs.Syntax.{automaton_of, destination_of, edge_of, write_of};
ghost use Rattle.jani_check.specs.NameLists.{names_under, under_one};
ghost use Rattle.jani_check.specs.Scopes.{thing_under};
ghost use Rattle.jani_check.specs.Things.{is_lasting};
ghost use Rattle.jani_check.specs.TypeFaults.{assigned_by, edge_shared, shared_by};

use crate::things::Things;
use crate::typing::is_lasting;
use gathering::NameLists;
use jani_tree::{JaniAutomaton, JaniDestination, JaniEdge, JaniWrite};
use std::alloc::{AllocError, Global};

/// The global variables, but not transient ones, that the edges of an automaton assign, under the actions of the edges.
pub(crate) fn shared_names<'a>(
    alloc: Global,
    global: &Things,
    a: &'a JaniAutomaton,
) -> Result<NameLists<'a, &'a str>, AllocError>
    ensures { IfOk result (λ lists. (x : List ℕ) → names_under lists x ≡ shared_by (thing_under global.now) (automaton_of a.now) x) }
{
    let mut lists = NameLists::new(alloc);
    for e in a.edges.as_slice() {
        add_edge(alloc, global, e, &mut lists)?;
    }
    Ok(lists)
}

fn add_edge<'a>(
    alloc: Global,
    global: &Things,
    e: &'a JaniEdge,
    lists: &mut NameLists<'a, &'a str>,
) -> Result<(), AllocError>
    ensures { OnOk result
        ((x : List ℕ) → names_under lists.new x
        ≡ names_under lists.old x ++ edge_shared (λ y. is_lasting (thing_under global.now y)) (edge_of e.now) x) }
{
    match &e.action {
        Some(action) => {
            let names = edge_names(alloc, global, e)?;
            add_under(alloc, action.name.as_str(), &names, lists)
        }
        None => Ok(()),
    }
}

// Adds names at the end of the list under another.
fn add_under<'a>(
    alloc: Global,
    key: &'a str,
    names: &[&'a str],
    lists: &mut NameLists<'a, &'a str>,
) -> Result<(), AllocError>
    ensures { OnOk result
        ((x : List ℕ) → names_under lists.new x ≡ names_under lists.old x ++ under_one key.now (map (λ s. s.now) names.now) x) }
{
    for name in names {
        lists.add(alloc, key, *name)?;
    }
    Ok(())
}

fn edge_names<'a>(
    alloc: Global,
    global: &Things,
    e: &'a JaniEdge,
) -> Result<Vec<&'a str>, AllocError>
    ensures { IfOk result
        (λ list. map (λ s. s.now) list.items ≡ assigned_by (λ y. is_lasting (thing_under global.now y)) (edge_of e.now)) }
{
    let mut list = Vec::new(alloc);
    add_destinations(global, e.destinations.as_slice(), &mut list)?;
    Ok(list)
}

fn add_destinations<'a>(
    global: &Things,
    destinations: &'a [JaniDestination],
    list: &mut Vec<&'a str>,
) -> Result<(), AllocError>
    ensures { OnOk result
        (map (λ s. s.now) list.new.items
        ≡ map (λ s. s.now) list.old.items
        ++ filter (λ y. is_lasting (thing_under global.now y)) (map (λ w. w.target.name) (flat_map (λ d. d.writes) (map destination_of destinations.now)))) }
{
    for d in destinations {
        add_writes(global, d.writes.as_slice(), list)?;
    }
    Ok(())
}

fn add_writes<'a>(
    global: &Things,
    writes: &'a [JaniWrite],
    list: &mut Vec<&'a str>,
) -> Result<(), AllocError>
    ensures { OnOk result
        (map (λ s. s.now) list.new.items
        ≡ map (λ s. s.now) list.old.items
        ++ filter (λ y. is_lasting (thing_under global.now y)) (map (λ w. w.target.name) (map write_of writes.now))) }
{
    for w in writes {
        let name = w.target.name.as_str();
        if is_lasting(global.get(name)) {
            list.push(name)?;
        }
    }
    Ok(())
}
