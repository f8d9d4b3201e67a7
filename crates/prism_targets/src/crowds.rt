// Whether the guard of a loop would join the guards of too many edges.

ghost use Rattle.std.specs.Prelude.{◌≡◌, ◌&&◌, [], IfOk, length, map, nat_lt};
ghost use Rattle.std.specs.List.{list_any};
ghost use Rattle.gathering.specs.Lists.{list_under};
ghost use Rattle.jani_tree.specs.Syntax.{automaton_of, element_of, file_of, location_of};
ghost use Rattle.jani_check.specs.NameFaults.{name_faults};
ghost use Rattle.jani_loops.specs.Looped.{lent_edge};
ghost use Rattle.edge_tables.specs.Counts.{edges_at};
ghost use Rattle.prism_translation.specs.Refused.{has_long_guard};
ghost use Rattle.prism_targets.specs.Crowds.{crowded_by, has_many, has_many_edges};

use bridge_io::Named;
use gathering::NameLists;
use jani_check::automata_by_name;
use jani_loops::{edges_by_action, edges_by_location};
use jani_tree::{JaniAutomaton, JaniEdge, JaniElement, JaniFile, JaniLocation};
use name_rules::NameMap;
use std::alloc::{AllocError, Global};

/// How many edges are too many beside a loop: an element may have 1,024 with one action at one location, and the loop is one of them.
const CROWD: usize = 1_024;

/// Whether an element has more than 1,024 edges, loops included, with an action that it accepts everywhere, at one location.
pub(crate) fn has_long_guard(alloc: Global, file: &JaniFile) -> Result<bool, AllocError>
    requires { name_faults (file_of file.now) ≡ [] }
    ensures { IfOk result (λ b. b ≡ has_long_guard (file_of file.now)) }
{
    let automata = automata_by_name(alloc, file.automata.as_slice())?;
    some_crowded(alloc, &automata, file.elements.as_slice())
}

/// Whether the edges of one of these elements' automata are too many beside one of its loops, where these are the automata by their names.
fn some_crowded(
    alloc: Global,
    automata: &NameMap<&JaniAutomaton>,
    elements: &[JaniElement],
) -> Result<bool, AllocError>
    ensures { IfOk result (λ b. b ≡ list_any (crowded_by automata.now) (map element_of elements.now)) }
{
    for e in elements {
        let automaton = automata.get(e.name.name.as_str());
        if is_crowded(alloc, automaton, e.enable.as_slice())? {
            return Ok(true);
        }
    }
    Ok(false)
}

/// The same of an automaton, if there is one, and the actions that its element accepts everywhere.
fn is_crowded(
    alloc: Global,
    automaton: Option<&JaniAutomaton>,
    actions: &[Named],
) -> Result<bool, AllocError>
    ensures { IfOk result (λ b. b ≡ has_many actions.now automaton.entry) }
{
    match automaton {
        Some(a) => has_many_edges(alloc, a, actions),
        None => Ok(false),
    }
}

/// Whether an automaton has too many edges with one of these actions at one location.
fn has_many_edges(alloc: Global, a: &JaniAutomaton, actions: &[Named]) -> Result<bool, AllocError>
    ensures { IfOk result (λ b. b ≡ has_many_edges actions.now (automaton_of a.now)) }
{
    if actions.len() == 0 {
        return Ok(false);
    }
    let acting = edges_by_action(alloc, a.edges.as_slice())?;
    for x in actions {
        if has_many_at(alloc, acting.get(x.name.as_str()), a.locations.as_slice())? {
            return Ok(true);
        }
    }
    Ok(false)
}

/// Whether too many of these edges start at one of the locations. Few edges are not looked at.
fn has_many_at(
    alloc: Global,
    edges: &[&JaniEdge],
    locations: &[JaniLocation],
) -> Result<bool, AllocError>
    ensures { IfOk result (λ b. b ≡ list_any (λ l. nat_lt 1023 (length (edges_at l (map lent_edge edges.now)))) (map location_of locations.now)) }
{
    if edges.len() < CROWD {
        return Ok(false);
    }
    let here = edges_by_location(alloc, edges)?;
    Ok(are_many(edges, locations, &here))
}

/// The same, where these are the edges by their locations. If too many start where one of these edges does, a location of a file without
/// faults has them, so that locations are gone through once.
fn are_many(edges: &[&JaniEdge], locations: &[JaniLocation], here: &NameLists<&JaniEdge>) -> bool
    ensures { result ≡ (list_any (λ e. nat_lt 1023 (length (list_under here.now e.now.location.name))) edges.now
        && list_any (λ l. nat_lt 1023 (length (list_under here.now l.name.name))) locations.now) }
{
    some_together(edges, here) && some_many(locations, here)
}

/// Whether too many edges start where one of these edges starts.
fn some_together(edges: &[&JaniEdge], here: &NameLists<&JaniEdge>) -> bool
    ensures { result ≡ list_any (λ e. nat_lt 1023 (length (list_under here.now e.now.location.name))) edges.now }
{
    edges
        .iter()
        .any(|e| here.get(e.location.name.as_str()).len() >= CROWD)
}

/// Whether too many start at one of these locations.
fn some_many(locations: &[JaniLocation], edges: &NameLists<&JaniEdge>) -> bool
    ensures { result ≡ list_any (λ l. nat_lt 1023 (length (list_under edges.now l.name.name))) locations.now }
{
    locations
        .iter()
        .any(|l| edges.get(l.name.name.as_str()).len() >= CROWD)
}
