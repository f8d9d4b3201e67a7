//! Which items of reward structures belong together, found once.
ghost use Rattle.std.specs.Prelude.{◌≡◌, ◌++◌, ℕ, IfOk, List as ListOf, None, OnOk, Some, map};
ghost use Rattle.std.specs.List.{filter, flat_map};
ghost use Rattle.gathering.specs.Lists.{list_under};
ghost use Rattle.prism_check.specs.Moment.{adds_of};
ghost use Rattle.prism_check.specs.Process.{is_for_states};
ghost use Rattle.prism_tree.specs.Syntax.{item_of, rewards_of};
ghost use Rattle.prism_instance.specs.Shapes.{earned_from, earned_in_states};
ghost use Rattle.prism_instance.specs.Sites.{AreEarnings, earned_of};
ghost use Rattle.prism_instance.specs.Views.{items_of};

use crate::data::ItemOf;
use gathering::{NameLists, keep_if};
use prism_tree::{ItemOn, PrismItem, PrismRewards};
use std::alloc::{AllocError, Global};

/// The items that choices earn: those of choices without label, and under each action those of choices with it.
#[derive(Drop)]
pub(crate) struct Earnings<'a> {
    pub(crate) silent: Vec<ItemOf<'a>>,
    pub(crate) named: NameLists<'a, ItemOf<'a>>,
}

/// The items that choices earn in all reward structures, by their labels.
pub(crate) fn all_earned<'a>(
    alloc: Global,
    rewards: &'a [PrismRewards],
) -> Result<Earnings<'a>, AllocError>
    ensures { IfOk result (AreEarnings (map rewards_of rewards.now)) }
{
    let mut all = Earnings {
        silent: Vec::new(alloc),
        named: NameLists::new(alloc),
    };
    for (k, structure) in rewards.iter().enumerate() {
        add_structure(alloc, k, structure.items.as_slice(), &mut all)?;
    }
    Ok(all)
}

/// The items of one reward structure besides.
fn add_structure<'a>(
    alloc: Global,
    k: usize,
    items: &'a [PrismItem],
    all: &mut Earnings<'a>,
) -> Result<(), AllocError>
    ensures silent { OnOk result (map earned_of all.new.silent.items ≡ map earned_of all.old.silent.items ++ flat_map (earned_from None k) (map item_of items.now)) }
    ensures named { OnOk result ((x : ListOf ℕ) → map earned_of (list_under all.new.named x)
        ≡ map earned_of (list_under all.old.named x) ++ flat_map (earned_from (Some x) k) (map item_of items.now)) }
{
    for item in items {
        add_item(alloc, k, item, all)?;
    }
    Ok(())
}

/// An item besides, if choices earn it.
fn add_item<'a>(
    alloc: Global,
    structure: usize,
    item: &'a PrismItem,
    all: &mut Earnings<'a>,
) -> Result<(), AllocError>
    ensures silent { OnOk result (map earned_of all.new.silent.items ≡ map earned_of all.old.silent.items ++ earned_from None structure (item_of item.now)) }
    ensures named { OnOk result ((x : ListOf ℕ) → map earned_of (list_under all.new.named x) ≡ map earned_of (list_under all.old.named x) ++ earned_from (Some x) structure (item_of item.now)) }
{
    let one = ItemOf { structure, item };
    match &item.on {
        ItemOn::InState => Ok(()),
        ItemOn::Silent => {
            all.silent.push(one)?;
            Ok(())
        }
        ItemOn::Action(action) => all.named.add(alloc, action.name.as_str(), one),
    }
}

/// The items of each reward structure that states earn.
pub(crate) fn earned_in_states(
    alloc: Global,
    rewards: &[PrismRewards],
) -> Result<Vec<Vec<&PrismItem>>, AllocError>
    ensures { IfOk result (λ ls. map (λ l. items_of l.items) ls.items ≡ earned_in_states (map rewards_of rewards.now)) }
{
    let mut lists = Vec::with_capacity(alloc, rewards.len())?;
    for structure in rewards {
        lists.push(state_items(alloc, structure.items.as_slice())?)?;
    }
    Ok(lists)
}

fn state_items(alloc: Global, items: &[PrismItem]) -> Result<Vec<&PrismItem>, AllocError>
    ensures { IfOk result (λ is. items_of is.items ≡ filter (λ i. is_for_states (adds_of i.on)) (map item_of items.now)) }
{
    let mut these = Vec::new(alloc);
    for item in items {
        let wanted = is_for_states(&item.on);
        keep_if(&mut these, wanted, item)?;
    }
    Ok(these)
}

fn is_for_states(on: &ItemOn) -> bool
    ensures { result ≡ is_for_states (adds_of on.now) }
{
    match on {
        ItemOn::InState => true,
        _ => false,
    }
}
