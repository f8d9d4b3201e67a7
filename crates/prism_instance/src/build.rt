//! Modules, items, labels and the initial condition of a file as parts of a network: expressions are put into the store as they are met.
ghost use Rattle.std.specs.Prelude.{◌≡◌, IfOk, Some, List as ListOf, ℕ, length, map};
ghost use Rattle.std.specs.Option.{option_map};
ghost use Rattle.op_trees.specs.Tree.{tree};
ghost use Rattle.instance_start.specs.Numbered.{with_value};
ghost use Rattle.expr_store.specs.Alike.{IsMade};
ghost use Rattle.expr_store.specs.Views.{nodes};
ghost use Rattle.process_core.specs.Ready.{Sum, Values};
ghost use Rattle.prism_check.specs.Moment.{condition_seen, weight_seen};
ghost use Rattle.prism_names.specs.Names.{see};
ghost use Rattle.prism_tree.specs.Operators.{prism_meaning};
ghost use Rattle.prism_tree.specs.Syntax as syntax;
ghost use Rattle.network.specs.Combined.{erased};
ghost use Rattle.network.specs.Views.{acting_at, component_at, earned_at, edge_at, guard_as, item_at, located_at, sum_at, update_at, value_by, weight_as, write_at};
ghost use Rattle.prism_instance.specs.Shapes.{command_under, item_under, sum_under, update_under, write_under};
ghost use Rattle.prism_instance.specs.Views.{commands_of, items_of};
ghost use Rattle.prism_instance.specs.Views.{columns_in, places_in, FindsColumns};
ghost use Rattle.prism_instance.specs.Sites.{acted_of, earned_of, member_under, sorted_of};

use crate::data::{Acted, ItemOf, Sorted};
use crate::state_names::{StateNames, column_of, put};
use expr_store::{ExprId, ExprStore};
use network::{Acting, Assignment, Component, Destination, Earned, Edge, Item, Located, Valued};
use prism_tree::{
    PrismBranch, PrismCommand, PrismExpr, PrismItem, PrismLabel, PrismOp, PrismWrite,
};
use std::alloc::{AllocError, Global};

/// Modules as components.
pub(crate) fn components(
    alloc: Global,
    modules: &[Sorted],
    names: &StateNames,
    store: &mut ExprStore<PrismOp>,
) -> Result<Vec<Component>, AllocError>
    requires { FindsColumns names.now }
    ensures { IfOk result (λ cs. (s : Values) → IsMade prism_meaning (places_in names.now) (nodes store.old) (nodes store.new)
        (λ look. map (λ c. component_at (columns_in names.now) look s c) cs.items)
        (λ seen. map (λ k. member_under (columns_in names.now) seen k) (map sorted_of modules.now))) }
{
    let mut all = Vec::with_capacity(alloc, modules.len())?;
    for one in modules {
        let component = component(alloc, one, names, store)?;
        all.push(component)?;
    }
    Ok(all)
}

/// A module: it is always at one location.
fn component(
    alloc: Global,
    one: &Sorted,
    names: &StateNames,
    store: &mut ExprStore<PrismOp>,
) -> Result<Component, AllocError>
    requires { FindsColumns names.now }
    ensures { IfOk result (λ c. (s : Values) → IsMade prism_meaning (places_in names.now) (nodes store.old) (nodes store.new)
        (λ look. component_at (columns_in names.now) look s c) (λ seen. member_under (columns_in names.now) seen (sorted_of one.now))) }
{
    let mut locations = Vec::with_capacity(alloc, 1)?;
    let located = located(alloc, one, names, store)?;
    locations.push(located)?;
    Ok(Component {
        column: None,
        locations,
    })
}

fn located(
    alloc: Global,
    one: &Sorted,
    names: &StateNames,
    store: &mut ExprStore<PrismOp>,
) -> Result<Located, AllocError>
    requires { FindsColumns names.now }
    ensures { IfOk result (λ l. IsMade prism_meaning (places_in names.now) (nodes store.old) (nodes store.new)
        (λ look. located_at (columns_in names.now) look (Some l)) (λ seen. member_under (columns_in names.now) seen (sorted_of one.now))) }
{
    let silent = edges(alloc, one.silent.as_slice(), names, store)?;
    let acting = acting(alloc, one.acting.as_slice(), names, store)?;
    Ok(Located {
        silent,
        acting,
        actions: one.actions.len(),
    })
}

/// Commands as edges.
fn edges(
    alloc: Global,
    commands: &[&PrismCommand],
    names: &StateNames,
    store: &mut ExprStore<PrismOp>,
) -> Result<Vec<Edge>, AllocError>
    requires { FindsColumns names.now }
    ensures { IfOk result (λ es. IsMade prism_meaning (places_in names.now) (nodes store.old) (nodes store.new)
        (λ look. map (λ e. edge_at (columns_in names.now) look e) es.items)
        (λ seen. map (λ c. erased (command_under (columns_in names.now) seen c)) (commands_of commands.now))) }
{
    let mut all = Vec::with_capacity(alloc, commands.len())?;
    for command in commands {
        let one = edge(alloc, command, names, store)?;
        all.push(one)?;
    }
    Ok(all)
}

/// Commands with an action as edges.
fn acting(
    alloc: Global,
    these: &[Acted],
    names: &StateNames,
    store: &mut ExprStore<PrismOp>,
) -> Result<Vec<Acting>, AllocError>
    requires { FindsColumns names.now }
    ensures { IfOk result (λ es. IsMade prism_meaning (places_in names.now) (nodes store.old) (nodes store.new)
        (λ look. map (λ e. acting_at (columns_in names.now) look e) es.items)
        (λ seen. map (λ c. with_value (λ k. erased (command_under (columns_in names.now) seen k)) c) (map acted_of these.now))) }
{
    let mut all = Vec::with_capacity(alloc, these.len())?;
    for one in these {
        let edge = edge(alloc, one.command, names, store)?;
        all.push(Acting {
            action: one.action,
            edge,
        })?;
    }
    Ok(all)
}

/// A command as an edge.
fn edge(
    alloc: Global,
    command: &PrismCommand,
    names: &StateNames,
    store: &mut ExprStore<PrismOp>,
) -> Result<Edge, AllocError>
    requires { FindsColumns names.now }
    ensures { IfOk result (λ e. IsMade prism_meaning (places_in names.now) (nodes store.old) (nodes store.new)
        (λ look. edge_at (columns_in names.now) look e) (λ seen. erased (command_under (columns_in names.now) seen (syntax.command_of command.now)))) }
{
    let guard = put(&command.guard, names, store)?;
    let destinations = destinations(alloc, command.branches.as_slice(), names, store)?;
    Ok(Edge {
        guard: Some(guard),
        destinations,
    })
}

fn destinations(
    alloc: Global,
    branches: &[PrismBranch],
    names: &StateNames,
    store: &mut ExprStore<PrismOp>,
) -> Result<Vec<Destination>, AllocError>
    requires { FindsColumns names.now }
    ensures { IfOk result (λ ds. IsMade prism_meaning (places_in names.now) (nodes store.old) (nodes store.new)
        (λ look. map (λ d. update_at (columns_in names.now) look d) ds.items)
        (λ seen. map (λ b. update_under (columns_in names.now) seen b) (map syntax.branch_of branches.now))) }
{
    let mut all = Vec::with_capacity(alloc, branches.len())?;
    for branch in branches {
        let one = destination(alloc, branch, names, store)?;
        all.push(one)?;
    }
    Ok(all)
}

fn destination(
    alloc: Global,
    branch: &PrismBranch,
    names: &StateNames,
    store: &mut ExprStore<PrismOp>,
) -> Result<Destination, AllocError>
    requires { FindsColumns names.now }
    ensures { IfOk result (λ d. IsMade prism_meaning (places_in names.now) (nodes store.old) (nodes store.new)
        (λ look. update_at (columns_in names.now) look d) (λ seen. update_under (columns_in names.now) seen (syntax.branch_of branch.now))) }
{
    let weight = weight(&branch.weight, names, store)?;
    let writes = writes(alloc, branch.writes.as_slice(), names, store)?;
    Ok(Destination {
        weight,
        writes,
        rewards: Vec::new(alloc),
    })
}

fn weight(
    weight: &Option<PrismExpr>,
    names: &StateNames,
    store: &mut ExprStore<PrismOp>,
) -> Result<Option<ExprId>, AllocError>
    ensures { IfOk result (λ w. IsMade prism_meaning (places_in names.now) (nodes store.old) (nodes store.new)
        (λ look. weight_as (option_map look w)) (λ seen. weight_seen seen (option_map tree weight.now))) }
{
    match weight {
        None => Ok(None),
        Some(e) => Ok(Some(put(e, names, store)?)),
    }
}

fn writes(
    alloc: Global,
    writes: &[PrismWrite],
    names: &StateNames,
    store: &mut ExprStore<PrismOp>,
) -> Result<Vec<Assignment>, AllocError>
    requires { FindsColumns names.now }
    ensures { IfOk result (λ ws. IsMade prism_meaning (places_in names.now) (nodes store.old) (nodes store.new)
        (λ look. map (λ w. write_at (columns_in names.now) look w) ws.items)
        (λ seen. map (λ w. write_under (columns_in names.now) seen w) (map syntax.write_of writes.now))) }
{
    let mut all = Vec::with_capacity(alloc, writes.len())?;
    for write in writes {
        let one = assignment(write, names, store)?;
        all.push(one)?;
    }
    Ok(all)
}

fn assignment(
    write: &PrismWrite,
    names: &StateNames,
    store: &mut ExprStore<PrismOp>,
) -> Result<Assignment, AllocError>
    requires { FindsColumns names.now }
    ensures { IfOk result (λ w. IsMade prism_meaning (places_in names.now) (nodes store.old) (nodes store.new)
        (λ look. write_at (columns_in names.now) look w) (λ seen. write_under (columns_in names.now) seen (syntax.write_of write.now))) }
{
    let place = column_of(write.name.name.as_str(), names);
    let value = put(&write.value, names, store)?;
    Ok(Assignment { place, value })
}

/// Items with the numbers of their structures.
pub(crate) fn earned(
    alloc: Global,
    these: &[ItemOf],
    names: &StateNames,
    store: &mut ExprStore<PrismOp>,
) -> Result<Vec<Earned>, AllocError>
    ensures { IfOk result (λ es. IsMade prism_meaning (places_in names.now) (nodes store.old) (nodes store.new)
        (λ look. map (λ e. earned_at look e) es.items) (λ seen. map (λ e. with_value (item_under seen) e) (map earned_of these.now))) }
{
    let mut all = Vec::with_capacity(alloc, these.len())?;
    for one in these {
        let item = item(one.item, names, store)?;
        all.push(Earned {
            structure: one.structure,
            item,
        })?;
    }
    Ok(all)
}

/// The items of each reward structure that states earn.
pub(crate) fn sums(
    alloc: Global,
    rewards: &[Vec<&PrismItem>],
    names: &StateNames,
    store: &mut ExprStore<PrismOp>,
) -> Result<Vec<Vec<Item>>, AllocError>
    ensures { IfOk result (λ rs. IsMade prism_meaning (places_in names.now) (nodes store.old) (nodes store.new)
        (λ look. map (λ is. sum_at look is.items) rs.items) (λ seen. map (λ is. sum_under seen is) (map (λ is. items_of is.items) rewards.now))) }
{
    let mut all = Vec::with_capacity(alloc, rewards.len())?;
    for items in rewards {
        let one = each_item(alloc, items.as_slice(), names, store)?;
        all.push(one)?;
    }
    Ok(all)
}

fn each_item(
    alloc: Global,
    items: &[&PrismItem],
    names: &StateNames,
    store: &mut ExprStore<PrismOp>,
) -> Result<Vec<Item>, AllocError>
    ensures { IfOk result (λ is. IsMade prism_meaning (places_in names.now) (nodes store.old) (nodes store.new)
        (λ look. map (λ i. item_at look i) is.items) (λ seen. map (λ i. item_under seen i) (items_of items.now))) }
{
    let mut all = Vec::with_capacity(alloc, items.len())?;
    for it in items {
        let one = item(it, names, store)?;
        all.push(one)?;
    }
    Ok(all)
}

fn item(
    item: &PrismItem,
    names: &StateNames,
    store: &mut ExprStore<PrismOp>,
) -> Result<Item, AllocError>
    ensures { IfOk result (λ i. IsMade prism_meaning (places_in names.now) (nodes store.old) (nodes store.new)
        (λ look. item_at look i) (λ seen. item_under seen (syntax.item_of item.now))) }
{
    let guard = put(&item.guard, names, store)?;
    let value = put(&item.value, names, store)?;
    Ok(Item { guard, value })
}

/// Labels: no location gives them a value.
pub(crate) fn labels(
    alloc: Global,
    labels: &[PrismLabel],
    names: &StateNames,
    store: &mut ExprStore<PrismOp>,
) -> Result<Vec<Valued>, AllocError>
    ensures { IfOk result (λ ls. (s : Values) → IsMade prism_meaning (places_in names.now) (nodes store.old) (nodes store.new)
        (λ look. map (λ l. value_by look s l) ls.items) (λ seen. map (λ l. see l.body seen) (map syntax.label_of labels.now))) }
{
    let mut all = Vec::with_capacity(alloc, labels.len())?;
    for label in labels {
        let one = valued(alloc, &label.body, names, store)?;
        all.push(one)?;
    }
    Ok(all)
}

fn valued(
    alloc: Global,
    body: &PrismExpr,
    names: &StateNames,
    store: &mut ExprStore<PrismOp>,
) -> Result<Valued, AllocError>
    ensures { IfOk result (λ l. (s : Values) → IsMade prism_meaning (places_in names.now) (nodes store.old) (nodes store.new)
        (λ look. value_by look s l) (λ seen. see (tree body.now) seen)) }
{
    let id = put(body, names, store)?;
    Ok(Valued {
        own: Some(id),
        givers: Vec::new(alloc),
    })
}

/// The initial condition.
pub(crate) fn condition(
    init: &Option<PrismExpr>,
    names: &StateNames,
    store: &mut ExprStore<PrismOp>,
) -> Result<Option<ExprId>, AllocError>
    ensures { IfOk result (λ c. IsMade prism_meaning (places_in names.now) (nodes store.old) (nodes store.new)
        (λ look. guard_as (option_map look c)) (λ seen. condition_seen seen (option_map tree init.now))) }
{
    match init {
        None => Ok(None),
        Some(e) => Ok(Some(put(e, names, store)?)),
    }
}
