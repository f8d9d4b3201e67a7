// How many commands and nodes the loops of an element have, counted without making one. Either number stands at 2^64 - 1 where it would
// pass that.

ghost use Rattle.std.specs.Prelude.{◌≡◌, ◌+◌, ◌*◌, Some, List as ListOf, ℕ, length, map, IfOk};
ghost use Rattle.std.specs.List.{sum_by};
ghost use Rattle.op_trees.specs.Tree.{capped};
ghost use Rattle.op_trees.specs.Tree as trees;
ghost use Rattle.gathering.specs.Lists.{list_under};
ghost use Rattle.jani_tree.specs.Syntax.{automaton_of, edge_of, location_of};
ghost use Rattle.jani_meaning.specs.Loops.{or_true};
ghost use Rattle.jani_loops.specs.Looped.{lent_edge};
ghost use Rattle.edge_tables.specs.Tables.{Split};
ghost use Rattle.edge_tables.specs.Counts.{action_count, guard_nodes, edges_at, joined_nodes};
ghost use Rattle.edge_tables.specs.Code.{AreSums};

use crate::sums::Sums;
use bridge_io::Named;
use gathering::NameLists;
use jani_loops::{edges_by_action, edges_by_location};
use jani_tree::{JaniAutomaton, JaniEdge, JaniLocation};
use op_trees::count;
use std::alloc::{AllocError, Global};

/// How many actions the loops of an element serve, by its sums: for each of these actions one loop stands at each location.
pub(crate) fn loop_commands(sums: &Sums, locations: &[JaniLocation], actions: &[Named]) -> u64
    ensures { (ss : ListOf Split) (k : ℕ) → AreSums sums.now ss k →
        result ≡ capped (sum_by (λ x. length locations.now * action_count ss k (Some x.name)) actions.now) }
{
    let mut sum: u64 = 0;
    for x in actions {
        let next = (locations.len() as u64).saturating_mul(sums.get(x.name.as_str()));
        sum = sum.saturating_add(next);
    }
    sum
}

/// The nodes of the loops of an element, by its sums: those of an action that serves nothing are not looked at, so that where the loops
/// serve few actions this takes little time.
pub(crate) fn loop_nodes(
    alloc: Global,
    sums: &Sums,
    a: &JaniAutomaton,
    actions: &[Named],
) -> Result<u64, AllocError>
    ensures { IfOk result (λ n. (ss : ListOf Split) (k : ℕ) → AreSums sums.now ss k →
        n ≡ capped (sum_by (λ x. action_count ss k (Some x.name) * guard_nodes (automaton_of a.now) x) actions.now)) }
{
    if actions.is_empty() {
        return Ok(0);
    }
    let acting = edges_by_action(alloc, a.edges.as_slice())?;
    let mut sum: u64 = 0;
    for x in actions {
        let next = action_nodes(alloc, sums, x, &acting, a.locations.as_slice())?;
        sum = sum.saturating_add(next);
    }
    Ok(sum)
}

/// The nodes of the loops with an action, once for each action that one of them serves, where these are the edges by their actions.
fn action_nodes(
    alloc: Global,
    sums: &Sums,
    action: &Named,
    acting: &NameLists<&JaniEdge>,
    locations: &[JaniLocation],
) -> Result<u64, AllocError>
    ensures { IfOk result (λ n. (ss : ListOf Split) (k : ℕ) → AreSums sums.now ss k →
        n ≡ capped (action_count ss k (Some action.now.name) * sum_by (λ l. joined_nodes (edges_at l (map lent_edge (list_under acting.now action.now.name)))) (map location_of locations.now))) }
{
    let times = sums.get(action.name.as_str());
    if times == 0 {
        return Ok(0);
    }
    let here = edges_by_location(alloc, acting.get(action.name.as_str()))?;
    Ok(times.saturating_mul(location_nodes(&here, locations)))
}

/// The nodes of the guards of one loop at each location, where these are the edges beside them, by their locations.
fn location_nodes(here: &NameLists<&JaniEdge>, locations: &[JaniLocation]) -> u64
    ensures { result ≡ capped (sum_by (λ l. joined_nodes (map lent_edge (list_under here.now l.name.name))) (map location_of locations.now)) }
{
    let mut sum: u64 = 0;
    for l in locations {
        sum = sum.saturating_add(joined_nodes(here.get(l.name.name.as_str())));
    }
    sum
}

/// The nodes of the guard of a loop beside these edges: it joins their guards, and negates what it has.
fn joined_nodes(edges: &[&JaniEdge]) -> u64
    ensures { result ≡ capped (joined_nodes (map lent_edge edges.now)) }
{
    let mut sum: u64 = 0;
    for e in edges {
        sum = sum.saturating_add(guard_count(*e)).saturating_add(1);
    }
    sum
}

/// The nodes of the guard of an edge; a missing one is true.
fn guard_count(e: &JaniEdge) -> u64
    ensures { result ≡ capped (trees.node_count (or_true (edge_of e.now).guard)) }
{
    match &e.guard {
        Some(guard) => count(guard),
        None => 1,
    }
}
