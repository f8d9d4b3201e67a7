// What the edges of an element serve, and what it blocks.

ghost use Rattle.std.specs.Prelude.{◌≡◌, ◌+◌, ◌++◌, List as ListOf, ℕ, map, if◌then◌else◌, IfOk, OnOk};
ghost use Rattle.std.specs.List.{filter, flat_map};
ghost use Rattle.op_trees.specs.Tree.{capped};
ghost use Rattle.process_core.specs.Instance.{only_if};
ghost use Rattle.gathering.specs.Lists.{list_under};
ghost use Rattle.jani_tree.specs.Syntax.{Edge};
ghost use Rattle.edge_tables.specs.Tables.{Row, all_numbers, blocks, calls, edge_serves, element_serves, numbers_served};
ghost use Rattle.edge_tables.specs.Code.{ranked_view, shape_kept, table_view};
ghost use Rattle.prism_targets.specs.Code.{edge_served, element_served, loop_serves, row_view, shape_served};

use crate::rows::VectorRow;
use crate::targets::Target;
use bridge_io::{Named, together};
use edge_tables::{ElementEdges, RankedEdge, is_another, part_of};
use gathering::NameLists;
use std::alloc::{AllocError, Global};

/// The numbers of the targets that an edge serves, in order, and whether it serves the empty action.
#[derive(Drop)]
pub struct EdgeServing {
    pub targets: Vec<usize>,
    pub silent: bool,
}

/// What the edges of an element's automaton serve; for each action that the element accepts everywhere, the numbers of the targets that
/// each of the loops with it serves, of which one stands at each of so many locations; and the numbers of the targets that the element
/// blocks; all in order.
#[derive(Drop)]
pub struct ElementServing {
    pub edges: Vec<EdgeServing>,
    pub loops: Vec<Vec<usize>>,
    pub locations: usize,
    pub blocked: Vec<usize>,
}

/// The targets of a file, in order, and what its elements do with them.
#[derive(Drop)]
pub struct Serving<'a> {
    pub targets: Vec<Target<'a>>,
    pub elements: Vec<ElementServing>,
}

/// Those of these vectors that name actions for an element, by these actions.
fn by_action<'a, 'r, 't>(
    alloc: Global,
    rows: &[&'r VectorRow<'a, 't>],
    element: usize,
) -> Result<NameLists<'a, &'r VectorRow<'a, 't>>, AllocError>
    ensures { IfOk result (λ n. (x : ListOf ℕ) → map (λ r. row_view r.now) (list_under n x) ≡ filter (calls element x) (map (λ r. row_view r.now) rows.now)) }
{
    let mut all = NameLists::new(alloc);
    for row in rows {
        add_called(alloc, &mut all, *row, element)?;
    }
    Ok(all)
}

/// Adds a vector, if it names an action for the element.
fn add_called<'a, 'r, 't>(
    alloc: Global,
    all: &mut NameLists<'a, &'r VectorRow<'a, 't>>,
    row: &'r VectorRow<'a, 't>,
    element: usize,
) -> Result<(), AllocError>
    ensures { OnOk result ((x : ListOf ℕ) → map (λ r. row_view r.now) (list_under all.new x)
        ≡ map (λ r. row_view r.now) (list_under all.old x) ++ only_if (calls element x (row_view row.now)) (row_view row.now)) }
{
    match part_of(row.split.vector, element) {
        Some(action) => all.add(alloc, action.name.as_str(), row),
        None => Ok(()),
    }
}

/// Adds all numbers of a vector's targets.
fn add_range(all: &mut Vec<usize>, row: &VectorRow) -> Result<(), AllocError>
    ensures { OnOk result (all.new.items ≡ all.old.items ++ all_numbers (row_view row.now)) }
{
    for number in row.first..row.end {
        all.push(number)?;
    }
    Ok(())
}

/// Adds the targets of a vector that an edge serves whose action the vector names: whether it assigns rewards, and how many edges before it
/// have its action and do so.
fn add_served(
    all: &mut Vec<usize>,
    element: usize,
    rewarding: bool,
    rank: usize,
    row: &VectorRow,
) -> Result<(), AllocError>
    ensures { OnOk result ((e : Edge) → all.new.items ≡ all.old.items ++ numbers_served element (record { edge = e; rewarding = rewarding; rank = rank }) (row_view row.now)) }
{
    if is_another(element, row.split.writer) {
        return add_range(all, row);
    }
    all.push(own_number(rewarding, rank, row))?;
    Ok(())
}

/// The target of a vector that is made for an edge of its reward writer, or the plain one.
fn own_number(rewarding: bool, rank: usize, row: &VectorRow) -> usize
    ensures { result ≡ (if rewarding then capped (row.now.first + rank) else row.now.behind) }
{
    if rewarding {
        row.first.saturating_add(rank)
    } else {
        row.behind
    }
}

/// The targets of these vectors that an edge serves whose action they name, likewise.
fn served(
    alloc: Global,
    element: usize,
    rewarding: bool,
    rank: usize,
    rows: &[&VectorRow],
) -> Result<Vec<usize>, AllocError>
    ensures { IfOk result (λ ns. (e : Edge) → ns.items
        ≡ flat_map (numbers_served element (record { edge = e; rewarding = rewarding; rank = rank })) (map (λ r. row_view r.now) rows.now)) }
{
    let mut all = Vec::new(alloc);
    for row in rows {
        add_served(&mut all, element, rewarding, rank, *row)?;
    }
    Ok(all)
}

/// The target that is made for a silent edge, if one is, where those of the silent edges of its element have the numbers from
/// this one on.
fn served_alone(alloc: Global, first: usize, e: &RankedEdge) -> Result<Vec<usize>, AllocError>
    ensures { IfOk result (λ ns. ns.items ≡ only_if e.now.rewarding (capped (first + e.now.rank))) }
{
    let mut all = Vec::new(alloc);
    if e.rewarding {
        all.push(first.saturating_add(e.rank))?;
    }
    Ok(all)
}

/// What an edge serves, where these vectors name actions for its element.
fn edge_serving(
    alloc: Global,
    naming: &NameLists<&VectorRow>,
    element: usize,
    first: usize,
    e: &RankedEdge,
) -> Result<EdgeServing, AllocError>
    ensures { IfOk result (λ s. (rows : ListOf Row) →
        ((x : ListOf ℕ) → map (λ r. row_view r.now) (list_under naming.now x) ≡ filter (calls element x) rows) →
        edge_served s ≡ edge_serves rows element first (ranked_view e.now)) }
{
    let targets = match &e.edge.action {
        Some(a) => served(
            alloc,
            element,
            e.rewarding,
            e.rank,
            naming.get(a.name.as_str()),
        ),
        None => served_alone(alloc, first, e),
    };
    Ok(EdgeServing {
        targets: targets?,
        silent: e.edge.action.is_none() && !e.rewarding,
    })
}

/// What edges of an element serve, where these vectors name actions for it.
fn edges_serving(
    alloc: Global,
    naming: &NameLists<&VectorRow>,
    element: usize,
    first: usize,
    edges: &[RankedEdge],
) -> Result<Vec<EdgeServing>, AllocError>
    ensures { IfOk result (λ es. (rows : ListOf Row) →
        ((x : ListOf ℕ) → map (λ r. row_view r.now) (list_under naming.now x) ≡ filter (calls element x) rows) →
        map edge_served es.items ≡ map (edge_serves rows element first) (map ranked_view edges.now)) }
{
    let mut all = Vec::new(alloc);
    for e in edges {
        all.push(edge_serving(alloc, naming, element, first, e)?)?;
    }
    Ok(all)
}

/// What each loop with one of these actions serves, action by action, where these vectors name actions for the element.
fn loops_serving(
    alloc: Global,
    naming: &NameLists<&VectorRow>,
    element: usize,
    actions: &[Named],
) -> Result<Vec<Vec<usize>>, AllocError>
    ensures { IfOk result (λ ls. (rows : ListOf Row) →
        ((x : ListOf ℕ) → map (λ r. row_view r.now) (list_under naming.now x) ≡ filter (calls element x) rows) →
        map (λ ns. ns.items) ls.items ≡ map (λ x. loop_serves rows element x.name) actions.now) }
{
    let mut all = Vec::new(alloc);
    for x in actions {
        all.push(served(alloc, element, false, 0, naming.get(x.name.as_str()))?)?;
    }
    Ok(all)
}

/// What the edges of an element's automaton and its loops serve.
fn all_serving(
    alloc: Global,
    rows: &[&VectorRow],
    element: usize,
    first: usize,
    edges: &ElementEdges,
) -> Result<(Vec<EdgeServing>, Vec<Vec<usize>>), AllocError>
    ensures edges { IfOk result
        (λ s. map edge_served s.0.items ≡ map (edge_serves (map (λ r. row_view r.now) rows.now) element first) (map ranked_view edges.now.edges.items)) }
    ensures loops { IfOk result
        (λ s. map (λ ns. ns.items) s.1.items ≡ map (λ x. loop_serves (map (λ r. row_view r.now) rows.now) element x.name) edges.now.element.accepts.now) }
{
    let naming = by_action(alloc, rows, element)?;
    let own = edges_serving(alloc, &naming, element, first, edges.edges.as_slice());
    together(
        own,
        loops_serving(alloc, &naming, element, edges.element.accepts),
    )
}

/// Whether a vector names an action for an element that no edge of it has.
fn is_blocking(edges: &ElementEdges, element: usize, row: &VectorRow) -> bool
    ensures { result ≡ blocks element (table_view edges.now) (row_view row.now) }
{
    let part = part_of(row.split.vector, element);
    part.is_some() && !edges.has_edge(part)
}

/// The targets that an element blocks.
fn blocked(
    alloc: Global,
    rows: &[&VectorRow],
    element: usize,
    edges: &ElementEdges,
) -> Result<Vec<usize>, AllocError>
    ensures { IfOk result (λ ns. ns.items ≡ flat_map all_numbers (filter (blocks element (table_view edges.now)) (map (λ r. row_view r.now) rows.now))) }
{
    let mut all = Vec::new(alloc);
    for row in rows {
        if is_blocking(edges, element, *row) {
            add_range(&mut all, *row)?;
        }
    }
    Ok(all)
}

/// What the edges of an element serve, and what it blocks, by the vectors in which it takes part, where the targets of its silent
/// edges have the numbers from this one on.
pub(crate) fn element_serving(
    alloc: Global,
    rows: &[&VectorRow],
    element: usize,
    first: usize,
    edges: &ElementEdges,
) -> Result<ElementServing, AllocError>
    ensures serving { IfOk result (λ s. element_served s ≡ element_serves (map (λ r. row_view r.now) rows.now) element first (table_view edges.now)) }
    ensures shape { IfOk result (λ s. shape_served s ≡ shape_kept edges.now) }
{
    let serving = all_serving(alloc, rows, element, first, edges);
    let ((own, loops), blocked) = together(serving, blocked(alloc, rows, element, edges))?;
    Ok(ElementServing {
        edges: own,
        loops,
        locations: edges.element.automaton.locations.len(),
        blocked,
    })
}
