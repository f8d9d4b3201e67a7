// The items of reward structures, by the actions that they are for.

ghost use Rattle.std.specs.Prelude.{◌≡◌, List as ListOf, ℕ, [], ◌++◌, map, IfOk, OnOk, bytes_eq, if◌then◌else◌};
ghost use Rattle.std.specs.List.{filter, flat_map, zip};
ghost use Rattle.prism_tree.specs.Syntax as prism;
ghost use Rattle.process_core.specs.Instance.{only_if};
ghost use Rattle.jani_tree.specs.Syntax as jani;
ghost use Rattle.name_table.specs.Asks.{NewNames as NamesOf};
ghost use Rattle.jani_translation.specs.Parts.{instead_if};
ghost use Rattle.jani_translation.specs.Automata.{for_action, sum_to, reward_of};
ghost use Rattle.jani_edges.specs.Code.{names_in, items_under, share_writes, shared_writes};

use crate::new_names::Names;
use crate::rewards::sum_to;
use bridge_io::List;
use gathering::{NameLists, shorter};
use jani_tree::JaniWrite;
use name_table::Entry;
use prism_tree::{ItemOn, PrismItem, PrismRewards};
use std::alloc::{AllocError, Global};

/// The items that a structure has for an action.
#[derive(Drop)]
pub(crate) struct Share<'a> {
    structure: &'a PrismRewards,
    named: &'a Entry,
    items: List<&'a PrismItem>,
}

/// The shares of structures in actions, by these.
#[derive(Drop)]
pub(crate) struct Shares<'a> {
    by_action: NameLists<'a, Share<'a>>,
}

/// Items, by the actions that they are for.
#[derive(Drop)]
struct Items<'a> {
    by_action: NameLists<'a, &'a PrismItem>,
}

impl<'a> Items<'a> {
    /// Those of these that are for actions.
    fn of(alloc: Global, items: &'a [PrismItem]) -> Result<Items<'a>, AllocError>
        ensures { IfOk result (λ t. (x : ListOf ℕ) → items_under t x ≡ filter (λ i. for_action x i.on) (map prism.item_of items.now)) }
    {
        let mut all = Items {
            by_action: NameLists::new(alloc),
        };
        for i in items {
            all.add(alloc, i)?;
        }
        Ok(all)
    }

    /// Adds an item, if it is for an action.
    fn add(&mut self, alloc: Global, i: &'a PrismItem) -> Result<(), AllocError>
        ensures { OnOk result ((x : ListOf ℕ) → items_under self.new x
            ≡ items_under self.old x ++ only_if (for_action x i.now.on) (prism.item_of i.now)) }
    {
        match &i.on {
            ItemOn::Action(a) => self.by_action.add(alloc, a.name.as_str(), i),
            _ => Ok(()),
        }
    }
}

impl<'a> Shares<'a> {
    /// Those of structures.
    pub(crate) fn of(
        alloc: Global,
        rewards: &'a [PrismRewards],
        entries: &'a [Entry],
    ) -> Result<Shares<'a>, AllocError>
        ensures { IfOk result (λ t. (n : NamesOf) (x : ListOf ℕ) → shared_writes n t x
            ≡ flat_map (λ p. reward_of n (for_action x) p.0 p.1) (zip (map prism.rewards_of rewards.now) entries.now)) }
    {
        let mut all = Shares {
            by_action: NameLists::new(alloc),
        };
        let count = shorter(rewards.len(), entries.len());
        for i in 0..count {
            all.add_structure(alloc, &rewards[i], &entries[i])?;
        }
        Ok(all)
    }

    /// Adds those of a structure: at the first item for an action, all that it has for this.
    fn add_structure(
        &mut self,
        alloc: Global,
        structure: &'a PrismRewards,
        entry: &'a Entry,
    ) -> Result<(), AllocError>
        ensures { OnOk result ((n : NamesOf) (x : ListOf ℕ) → shared_writes n self.new x
            ≡ shared_writes n self.old x ++ reward_of n (for_action x) (prism.rewards_of structure.now) entry.now) }
    {
        let items = structure.items.as_slice();
        let mut left = Items::of(alloc, items)?;
        for i in items {
            self.add_share(alloc, &mut left, structure, entry, &i.on)?;
        }
        Ok(())
    }

    /// Adds what is left of a structure's items for the action that an item is for, if it is for one.
    fn add_share(
        &mut self,
        alloc: Global,
        left: &mut Items<'a>,
        structure: &'a PrismRewards,
        entry: &'a Entry,
        on: &'a ItemOn,
    ) -> Result<(), AllocError>
        ensures shares { OnOk result ((n : NamesOf) (x : ListOf ℕ) → shared_writes n self.new x
            ≡ shared_writes n self.old x
            ++ (if for_action x on.now then sum_to n (instead_if structure.now.name entry.now.name) (items_under left.old x) else [])) }
        ensures left { OnOk result ((x : ListOf ℕ) → items_under left.new x ≡ (if for_action x on.now then [] else items_under left.old x)) }
    {
        match on {
            ItemOn::Action(a) => {
                let items = left.by_action.take(alloc, a.name.as_str());
                self.add(
                    alloc,
                    a.name.as_str(),
                    Share {
                        structure,
                        named: entry,
                        items,
                    },
                )
            }
            _ => Ok(()),
        }
    }

    /// Adds a share in an action, if it has items.
    fn add(&mut self, alloc: Global, action: &'a str, share: Share<'a>) -> Result<(), AllocError>
        ensures { OnOk result ((n : NamesOf) (x : ListOf ℕ) → shared_writes n self.new x
            ≡ shared_writes n self.old x ++ (if bytes_eq action.now x then share_writes n share.entry else [])) }
    {
        if share.items.len() == 0 {
            return Ok(());
        }
        self.by_action.add(alloc, action, share)
    }

    /// What gives the structures their sums for an action.
    pub(crate) fn sums(
        &self,
        alloc: Global,
        action: &str,
        names: &Names,
    ) -> Result<List<JaniWrite>, AllocError>
        ensures { IfOk result (λ all. map jani.write_of all ≡ shared_writes (names_in names.now) self.now action.now) }
    {
        let mut all = List::new(alloc);
        add_sums(alloc, &mut all, self.by_action.get(action), names)?;
        Ok(all)
    }
}

/// Adds what gives structures the sums of their shares.
fn add_sums(
    alloc: Global,
    all: &mut List<JaniWrite>,
    shares: &[Share],
    names: &Names,
) -> Result<(), AllocError>
    ensures { OnOk result (map jani.write_of all.new ≡ map jani.write_of all.old ++ flat_map (share_writes (names_in names.now)) shares.now) }
{
    for share in shares {
        share.add_sum(alloc, all, names)?;
    }
    Ok(())
}

impl<'a> Share<'a> {
    /// Adds what gives the structure the sum of the items; without an item there is nothing.
    fn add_sum(
        &self,
        alloc: Global,
        all: &mut List<JaniWrite>,
        names: &Names,
    ) -> Result<(), AllocError>
        ensures { OnOk result (map jani.write_of all.new ≡ map jani.write_of all.old ++ share_writes (names_in names.now) self.now) }
    {
        let items = self.items.as_slice();
        if items.len() == 0 {
            return Ok(());
        }
        all.push(sum_to(alloc, self.structure, self.named, items, names)?)?;
        Ok(())
    }
}
