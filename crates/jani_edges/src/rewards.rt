// The items of reward structures and their sums.

ghost use Rattle.std.specs.Prelude.{◌≡◌, ◌<◌, ◌++◌, ◌∷◌, [], length, map, IfOk, OnOk};
ghost use Rattle.std.specs.List.{filter, list_any};
ghost use Rattle.op_trees.specs.Tree.{tree, Two};
ghost use Rattle.jani_table.specs.declared.operator.JaniOp.TheVariants.{Add};
ghost use Rattle.prism_tree.specs.Syntax as prism;
ghost use Rattle.jani_tree.specs.Syntax as jani;
ghost use Rattle.jani_translation.specs.Parts.{instead_if};
ghost use Rattle.jani_translation.specs.Automata.{item_value, sum_behind, sum_to, reward_of, rewards_of};
ghost use Rattle.jani_edges.specs.Code.{wanted_by, names_in};

use crate::new_names::Names;
use crate::values::{instead_if, nought};
use bridge_io::{List, together};
use gathering::{keep_if, shorter};
use jani_table::JaniOp;
use jani_tree::{JaniExpr, JaniWrite};
use name_table::Entry;
use op_trees::{three, two};
use prism_images::image;
use prism_tree::{ItemOn, PrismItem, PrismRewards};
use std::alloc::{AllocError, Global};

/// A kind of items: for states, for commands without action.
#[derive(Drop)]
pub(crate) enum Wanted {
    States,
    Silent,
}

impl Wanted {
    /// Whether an item is of the kind.
    fn is(&self, on: &ItemOn) -> bool
        ensures { result ≡ wanted_by self.now on.now }
    {
        match (self, on) {
            (Wanted::States, ItemOn::InState) => true,
            (Wanted::Silent, ItemOn::Silent) => true,
            _ => false,
        }
    }
}

/// Whether some structure has items of the kind.
pub(crate) fn has_items(wanted: &Wanted, rewards: &[PrismRewards]) -> bool
    ensures { result ≡ list_any (λ r. list_any (λ i. wanted_by wanted.now i.on) r.items) (map prism.rewards_of rewards.now) }
{
    rewards.iter().any(|r| has_item(wanted, r))
}

/// Whether a structure has items of the kind.
fn has_item(wanted: &Wanted, r: &PrismRewards) -> bool
    ensures { result ≡ list_any (λ i. wanted_by wanted.now i.on) (prism.rewards_of r.now).items }
{
    r.items.as_slice().iter().any(|i| wanted.is(&i.on))
}

/// An item gives its value where its guard holds, else 0.
fn item_value(alloc: Global, i: &PrismItem, names: &Names) -> Result<JaniExpr, AllocError>
    ensures { IfOk result (λ r. tree r ≡ item_value (names_in names.now) (prism.item_of i.now)) }
{
    let guard = image(alloc, &i.guard, &names.value);
    let value = image(alloc, &i.value, &names.value);
    three(alloc, 0, JaniOp::Ite, guard, value, Ok(nought()))
}

/// The sum of two expressions.
fn sum_of(alloc: Global, a: JaniExpr, b: JaniExpr) -> Result<JaniExpr, AllocError>
    ensures { IfOk result (λ r. tree r ≡ Two 0 Add (tree a) (tree b)) }
{
    two(alloc, 0, JaniOp::Add, Ok(a), Ok(b))
}

/// A sum from the left, behind a first member.
fn sum_behind(
    alloc: Global,
    first: JaniExpr,
    items: &[&PrismItem],
    names: &Names,
) -> Result<JaniExpr, AllocError>
    ensures { IfOk result (λ r. tree r ≡ sum_behind (names_in names.now) (tree first) (map (λ i. prism.item_of i.now) items.now)) }
{
    let mut sum = first;
    for i in items {
        let value = item_value(alloc, i, names)?;
        sum = sum_of(alloc, sum, value)?;
    }
    Ok(sum)
}

/// The items of the kind.
fn items_of<'a>(
    alloc: Global,
    wanted: &Wanted,
    items: &'a [PrismItem],
) -> Result<Vec<&'a PrismItem>, AllocError>
    ensures { IfOk result (λ r. map (λ i. prism.item_of i.now) r.items ≡ filter (λ i. wanted_by wanted.now i.on) (map prism.item_of items.now)) }
{
    let mut all = Vec::new(alloc);
    for i in items {
        keep_if(&mut all, wanted.is(&i.on), i)?;
    }
    Ok(all)
}

/// Adds what gives a structure the sum of its items of the kind; without an item there is nothing.
fn add_reward(
    alloc: Global,
    all: &mut List<JaniWrite>,
    wanted: &Wanted,
    r: &PrismRewards,
    e: &Entry,
    names: &Names,
) -> Result<(), AllocError>
    ensures { OnOk result (map jani.write_of all.new ≡ map jani.write_of all.old ++ reward_of (names_in names.now) (wanted_by wanted.now) (prism.rewards_of r.now) e.now) }
{
    let items = items_of(alloc, wanted, r.items.as_slice())?;
    if items.len() == 0 {
        return Ok(());
    }
    all.push(sum_to(alloc, r, e, items.as_slice(), names)?)?;
    Ok(())
}

/// What gives a structure the sum of some items, of which there are some.
pub(crate) fn sum_to(
    alloc: Global,
    r: &PrismRewards,
    e: &Entry,
    items: &[&PrismItem],
    names: &Names,
) -> Result<JaniWrite, AllocError>
    requires { 0 < length items.now }
    ensures { IfOk result (λ w. jani.write_of w ∷ [] ≡ sum_to (names_in names.now) (instead_if r.now.name e.now.name) (map (λ i. prism.item_of i.now) items.now)) }
{
    let first = item_value(alloc, items[0], names)?;
    let value = sum_behind(alloc, first, &items[1..], names);
    let (target, value) = together(instead_if(alloc, &r.name, e.name.as_str()), value)?;
    Ok(JaniWrite { target, value })
}

/// Adds what gives each structure that has items of the kind their sum, in order.
pub(crate) fn add_rewards(
    alloc: Global,
    all: &mut List<JaniWrite>,
    wanted: &Wanted,
    rewards: &[PrismRewards],
    names: &Names,
) -> Result<(), AllocError>
    ensures { OnOk result (map jani.write_of all.new ≡ map jani.write_of all.old ++ rewards_of (names_in names.now) (wanted_by wanted.now) (map prism.rewards_of rewards.now)) }
{
    let count = shorter(rewards.len(), names.rewards.len());
    for i in 0..count {
        add_reward(alloc, all, wanted, &rewards[i], &names.rewards[i], names)?;
    }
    Ok(())
}
