// How many commands and nodes a translation has, counted before it is made. Either number stands at 2^64 - 1 where it would pass
// that.

ghost use Rattle.std.specs.Prelude.{◌≡◌, ◌+◌, ◌*◌, ◌≤◌, List as ListOf, ℕ, map, nat_lt, ◌||◌, if◌then◌else◌, IfOk, OnOk};
ghost use Rattle.std.specs.List.{filter, sum_by};
ghost use Rattle.std.specs.Option.{option_map};
ghost use Rattle.op_trees.specs.Tree.{capped, tree};
ghost use Rattle.op_trees.specs.Tree as trees;
ghost use Rattle.jani_tree.specs.Syntax.{destination_of, edge_of, write_of};
ghost use Rattle.prism_translation.specs.Refused.{destination_nodes, edge_nodes, nodes_if};
ghost use Rattle.edge_tables.specs.Tables.{Split, split_count};
ghost use Rattle.edge_tables.specs.Counts.{action_count, blocks_split, command_count, commands_from, edge_count, names_split, node_count, nodes_from, weight};
ghost use Rattle.edge_tables.specs.Code.{ranked_view, table_view, name_in, split_view, sum_under, AreSums};

use crate::edges::{ElementEdges, RankedEdge};
use crate::loop_counts::{loop_commands, loop_nodes};
use crate::participants::splits_by_element;
use crate::parts::{is_another, part_of};
use crate::splits::VectorSplit;
use crate::sums::Sums;
use bridge_io::Named;
use jani_tree::{JaniDestination, JaniEdge, JaniExpr, JaniWrite};
use op_trees::count;
use std::alloc::{AllocError, Global};

// The limits on a translation.
const COMMAND_LIMIT: u64 = 200_000;

const NODE_LIMIT: u64 = 2_000_000;

/// How many commands and nodes there are.
#[derive(Clone, Copy)]
struct Size {
    commands: u64,
    nodes: u64,
}

/// Whether the translation has too many commands or nodes, by the edges of the elements and by how the vectors are split.
/// `Err` is want of memory.
pub fn has_too_many(
    alloc: Global,
    elements: &[ElementEdges],
    splits: &[VectorSplit],
) -> Result<bool, AllocError>
    ensures { IfOk result (λ b. b ≡
        (nat_lt 200000 (commands_from (map split_view splits.now) 0 (map table_view elements.now))
        || nat_lt 2000000 (nodes_from (map split_view splits.now) 0 (map table_view elements.now)))) }
{
    let size = whole_size(alloc, elements, splits)?;
    Ok(size.commands > COMMAND_LIMIT || size.nodes > NODE_LIMIT)
}

/// The size of the translation. Its nodes are counted only where its commands are not too many.
fn whole_size(
    alloc: Global,
    elements: &[ElementEdges],
    splits: &[VectorSplit],
) -> Result<Size, AllocError>
    ensures commands { IfOk result (λ s. s.commands ≡ capped (commands_from (map split_view splits.now) 0 (map table_view elements.now))) }
    ensures nodes { IfOk result (λ s. s.commands ≤ 200000 → s.nodes ≡ capped (nodes_from (map split_view splits.now) 0 (map table_view elements.now))) }
{
    let mine = splits_by_element(alloc, splits)?;
    let mut whole = Size {
        commands: 0,
        nodes: 0,
    };
    for (k, e) in elements.iter().enumerate() {
        let next = with_element(alloc, whole, e, mine.get(k), k)?;
        whole = next;
    }
    Ok(whole)
}

/// A size, and what is made of an element besides, by the vectors in which it takes part.
fn with_element(
    alloc: Global,
    before: Size,
    element: &ElementEdges,
    splits: &[&VectorSplit],
    number: usize,
) -> Result<Size, AllocError>
    ensures commands { IfOk result (λ s. s.commands ≡ capped (before.commands + command_count (map (λ t. split_view t.now) splits.now) number (table_view element.now))) }
    ensures nodes { IfOk result (λ s. s.commands ≤ 200000 →
        s.nodes ≡ capped (before.nodes + node_count (map (λ t. split_view t.now) splits.now) number (table_view element.now))) }
{
    let sums = action_sums(alloc, splits, number)?;
    let own = element_commands(&sums, element, splits, number);
    let commands = before.commands.saturating_add(own);
    if commands > COMMAND_LIMIT {
        return Ok(Size { commands, nodes: 0 });
    }
    let own = element_nodes(alloc, &sums, element)?;
    Ok(Size {
        commands,
        nodes: before.nodes.saturating_add(own),
    })
}

/// The commands of an element, by the sums of it.
fn element_commands(
    sums: &Sums,
    element: &ElementEdges,
    splits: &[&VectorSplit],
    number: usize,
) -> u64
    ensures { AreSums sums.now (map (λ t. split_view t.now) splits.now) number →
        result ≡ capped (command_count (map (λ t. split_view t.now) splits.now) number (table_view element.now)) }
{
    edge_commands(sums, element.edges.as_slice())
        .saturating_add(loop_commands(
            sums,
            element.element.automaton.locations.as_slice(),
            element.element.accepts,
        ))
        .saturating_add(blocked_count(element, splits, number))
}

/// The nodes of an element, by the sums of it.
fn element_nodes(alloc: Global, sums: &Sums, element: &ElementEdges) -> Result<u64, AllocError>
    ensures { IfOk result (λ n. (ss : ListOf Split) (k : ℕ) → AreSums sums.now ss k → n ≡ capped (node_count ss k (table_view element.now))) }
{
    let own = nodes_of(sums, element.edges.as_slice());
    let loops = loop_nodes(
        alloc,
        sums,
        element.element.automaton,
        element.element.accepts,
    )?;
    Ok(own.saturating_add(loops))
}

/// How many targets an edge of the element serves, by its action.
fn action_sums<'a>(
    alloc: Global,
    splits: &[&VectorSplit<'a, '_>],
    number: usize,
) -> Result<Sums<'a>, AllocError>
    ensures { IfOk result (λ t. (x : ListOf ℕ) → sum_under t x ≡ capped (sum_by (weight number) (filter (names_split number x) (map (λ s. split_view s.now) splits.now)))) }
{
    let mut sums = Sums::new(alloc);
    for split in splits {
        add_action(&mut sums, *split, number)?;
    }
    Ok(sums)
}

/// Adds how many targets of a vector an edge serves, if the vector names an action for the element.
fn add_action<'a>(
    sums: &mut Sums<'a>,
    split: &VectorSplit<'a, '_>,
    number: usize,
) -> Result<(), AllocError>
    ensures { OnOk result ((x : ListOf ℕ) → sum_under sums.new x
        ≡ (if names_split number x (split_view split.now) then capped (sum_under sums.old x + weight number (split_view split.now)) else sum_under sums.old x)) }
{
    match part_of(split.vector, number) {
        Some(action) => sums.add(action.name.as_str(), served_of(split, number)),
        None => Ok(()),
    }
}

/// How many targets of a vector an edge of this element serves whose action the vector names.
fn served_of(split: &VectorSplit, number: usize) -> u64
    ensures { result ≡ capped (weight number (split_view split.now)) }
{
    if is_another(number, split.writer) {
        target_count(split)
    } else {
        1
    }
}

/// How many targets a vector has.
fn target_count(split: &VectorSplit) -> u64
    ensures { result ≡ capped (split_count (split_view split.now)) }
{
    let made = split.makers.len() as u64;
    if split.plain {
        made.saturating_add(1)
    } else {
        made
    }
}

/// How many targets the element blocks.
fn blocked_count(element: &ElementEdges, splits: &[&VectorSplit], number: usize) -> u64
    ensures { result ≡ capped (sum_by split_count (filter (blocks_split number (table_view element.now)) (map (λ s. split_view s.now) splits.now))) }
{
    let mut sum: u64 = 0;
    for split in splits {
        if is_blocking(element, *split, number) {
            sum = sum.saturating_add(target_count(*split));
        }
    }
    sum
}

/// Whether a vector names an action for the element that no edge of it has.
fn is_blocking(element: &ElementEdges, split: &VectorSplit, number: usize) -> bool
    ensures { result ≡ blocks_split number (table_view element.now) (split_view split.now) }
{
    let part = part_of(split.vector, number);
    part.is_some() && !element.has_edge(part)
}

/// How many actions an edge with this action serves, by the sums of its element.
fn action_count(sums: &Sums, action: &Option<Named>) -> u64
    ensures { (ss : ListOf Split) (k : ℕ) → AreSums sums.now ss k → result ≡ capped (action_count ss k (name_in action.now)) }
{
    match action {
        Some(a) => sums.get(a.name.as_str()),
        None => 1,
    }
}

/// How many actions edges serve, by the sums of their element.
fn edge_commands(sums: &Sums, edges: &[RankedEdge]) -> u64
    ensures { (ss : ListOf Split) (k : ℕ) → AreSums sums.now ss k → result ≡ capped (sum_by (edge_count ss k) (map ranked_view edges.now)) }
{
    let mut sum: u64 = 0;
    for e in edges {
        sum = sum.saturating_add(action_count(sums, &e.edge.action));
    }
    sum
}

/// The nodes of edges, each as often as it serves actions, by the sums of their element.
fn nodes_of(sums: &Sums, edges: &[RankedEdge]) -> u64
    ensures { (ss : ListOf Split) (k : ℕ) → AreSums sums.now ss k → result ≡ capped (sum_by (λ e. edge_nodes e.edge * edge_count ss k e) (map ranked_view edges.now)) }
{
    let mut sum: u64 = 0;
    for e in edges {
        let times = action_count(sums, &e.edge.action);
        sum = sum.saturating_add(edge_nodes(e.edge).saturating_mul(times));
    }
    sum
}

/// The nodes of an edge: of its guard, its probabilities and all that it assigns.
fn edge_nodes(e: &JaniEdge) -> u64
    ensures { result ≡ capped (edge_nodes (edge_of e.now)) }
{
    nodes_if(&e.guard).saturating_add(destinations_nodes(e.destinations.as_slice()))
}

/// The nodes of destinations.
fn destinations_nodes(destinations: &[JaniDestination]) -> u64
    ensures { result ≡ capped (sum_by destination_nodes (map destination_of destinations.now)) }
{
    let mut sum: u64 = 0;
    for d in destinations {
        sum = sum.saturating_add(destination_nodes(d));
    }
    sum
}

/// The nodes of a destination.
fn destination_nodes(d: &JaniDestination) -> u64
    ensures { result ≡ capped (destination_nodes (destination_of d.now)) }
{
    nodes_if(&d.weight).saturating_add(writes_nodes(d.writes.as_slice()))
}

/// The nodes of what is assigned.
fn writes_nodes(writes: &[JaniWrite]) -> u64
    ensures { result ≡ capped (sum_by (λ w. trees.node_count w.value) (map write_of writes.now)) }
{
    let mut sum: u64 = 0;
    for w in writes {
        sum = sum.saturating_add(count(&w.value));
    }
    sum
}

/// The nodes of an expression, if there is one.
fn nodes_if(e: &Option<JaniExpr>) -> u64
    ensures { result ≡ capped (nodes_if (option_map tree e.now)) }
{
    match e {
        Some(e) => count(e),
        None => 0,
    }
}
