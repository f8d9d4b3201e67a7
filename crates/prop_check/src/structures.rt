// The reward structures that properties may name.

ghost use Rattle.std.specs.Prelude.{◌≡◌, List, ℕ, map, IfOk, OnOk, None, Some, if◌then◌else◌};
ghost use Rattle.std.specs.List.{position};
ghost use Rattle.std.specs.Option.{option_or};
ghost use Rattle.name_rules.specs.Names.{under};
ghost use Rattle.prism_tree.specs.Syntax.{rewards_of};
ghost use Rattle.prop_trees.specs.PrismFaults.{is_titled};
ghost use Rattle.prop_check.specs.Tables.{ArePlaced, first_place, place_in};

use name_rules::NameMap;
use prism_tree::PrismRewards;
use prop_grammar::Structure;
use std::alloc::{AllocError, Global};

/// The places of the reward structures of a file by their names.
#[derive(Drop)]
pub(crate) struct Structures<'a> {
    places: NameMap<'a, usize>,
    has_any: bool,
}

impl<'a> Structures<'a> {
    /// Those of a file with these structures. `Err` is want of memory.
    pub(crate) fn of(alloc: Global, all: &'a [PrismRewards]) -> Result<Structures<'a>, AllocError>
        ensures { IfOk result (λ structures. ArePlaced structures (map rewards_of all.now)) }
    {
        let places = places(alloc, all)?;
        Ok(Structures {
            places,
            has_any: all.len() > 0,
        })
    }

    /// The place of the structure of this name, or without a name of the first one; none where there is none.
    pub(crate) fn place(&self, structure: &Structure) -> Option<usize>
        ensures { result ≡ place_in self.now structure.now.name }
    {
        match &structure.name {
            Some(name) => self.places.get(name.as_str()),
            None => self.first(),
        }
    }

    // The place of the first one, if there is one.
    fn first(&self) -> Option<usize>
        ensures { result ≡ first_place self.now.has_any }
    {
        if self.has_any { Some(0) } else { None }
    }
}

// The place of the first structure of each name.
fn places<'a>(alloc: Global, all: &'a [PrismRewards]) -> Result<NameMap<'a, usize>, AllocError>
    ensures { IfOk result (λ places. (x : List ℕ) → under places x ≡ position (is_titled x) (map rewards_of all.now)) }
{
    let mut places = NameMap::new(alloc);
    for (place, rewards) in all.iter().enumerate() {
        note(&mut places, rewards, place)?;
    }
    Ok(places)
}

// Notes the place of a structure under its name, if it has one and none of this name was before.
fn note<'a>(
    places: &mut NameMap<'a, usize>,
    rewards: &'a PrismRewards,
    place: usize,
) -> Result<(), AllocError>
    ensures { OnOk result
        ((x : List ℕ) → under places.new x
        ≡ option_or (under places.old x) (if is_titled x (rewards_of rewards.now) then Some place else None)) }
{
    match &rewards.name {
        Some(name) => places.put_first(name.name.as_str(), place),
        None => Ok(()),
    }
}
