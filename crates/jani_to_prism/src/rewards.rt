// Reward structures.

ghost use Rattle.std.specs.Prelude.{◌≡◌, ◌++◌, ◌∷◌, [], ℕ, map, IfOk, OnOk};
ghost use Rattle.op_trees.specs.Tree.{tree};
ghost use Rattle.prism_tree.specs.Syntax as prism;
ghost use Rattle.process_core.specs.Instance.{numbered};
ghost use Rattle.name_table.specs.JaniParts.{owned_of};
ghost use Rattle.name_table.specs.PrismAsks.{name_at};
ghost use Rattle.prism_targets.specs.Elements.{elements};
ghost use Rattle.prism_targets.specs.Targets.{targets};
ghost use Rattle.prism_targets.specs.Marks.{given_where, state_item, or_nought, structure};
ghost use Rattle.gathering.specs.Lists.{list_for};
ghost use Rattle.prism_modules.specs.Code.{file_in, names_in, IsReady, HasActions};
ghost use Rattle.jani_to_prism.specs.Given.{given_of, AreGiven};
ghost use Rattle.jani_to_prism.specs.Gains.{gain_of, gain_item, gains_of, structure_by};

use crate::gains::Gain;
use crate::given::{Given, GivenTable};
use crate::labels::given_image;
use bridge_io::{List, together};
use gathering::NumberLists;
use name_table::{OwnedVar, instead, made};
use prism_modules::{Names, counted, image, is_there, name_at, truth};
use prism_tree::{ItemOn, PrismExpr, PrismItem, PrismRewards};
use std::alloc::{AllocError, Global};

/// The element is at the location that gives a value, if it has several.
fn given_where(alloc: Global, names: &Names, g: &Given) -> Result<PrismExpr, AllocError>
    ensures { IfOk result (λ r. tree r ≡ given_where (file_in names.now) (names_in names.now) (given_of g.now)) }
{
    if !g.element.has_several() {
        return Ok(truth());
    }
    is_there(alloc, names, g.element.number, g.location)
}

/// The item of a value that a location gives.
fn state_item(alloc: Global, names: &Names, g: &Given) -> Result<PrismItem, AllocError>
    requires { IsReady names.now }
    ensures { IfOk result (λ r. prism.item_of r ≡ state_item (file_in names.now) (names_in names.now) (given_of g.now)) }
{
    let guard = given_where(alloc, names, g);
    let (guard, value) = together(guard, given_image(alloc, names, g))?;
    Ok(PrismItem {
        on: ItemOn::InState,
        guard,
        value,
    })
}

/// The item of a value that an edge assigns.
fn target_item(alloc: Global, names: &Names, g: &Gain) -> Result<PrismItem, AllocError>
    requires { IsReady names.now }
    ensures { IfOk result (λ r. prism.item_of r ≡ gain_item (file_in names.now) (names_in names.now) (gain_of g.now)) }
{
    let action = made(alloc, name_at(names.entries.actions, g.target));
    let (action, value) = together(action, image(alloc, names, g.element, g.value))?;
    Ok(PrismItem {
        on: ItemOn::Action(action),
        guard: truth(),
        value,
    })
}

/// The items of a structure: those of states, and then those of targets.
fn items(
    alloc: Global,
    names: &Names,
    given: &[Given],
    gains: &[Gain],
) -> Result<List<PrismItem>, AllocError>
    requires { IsReady names.now }
    ensures { IfOk result (λ all. map prism.item_of all ≡
        map (state_item (file_in names.now) (names_in names.now)) (map given_of given.now) ++ map (gain_item (file_in names.now) (names_in names.now)) (map gain_of gains.now)) }
{
    let mut all = state_items(alloc, names, given)?;
    for g in gains {
        all.push(target_item(alloc, names, g)?)?;
    }
    Ok(all)
}

/// The items of states.
fn state_items(alloc: Global, names: &Names, given: &[Given]) -> Result<List<PrismItem>, AllocError>
    requires { IsReady names.now }
    ensures { IfOk result (λ all. map prism.item_of all ≡ map (state_item (file_in names.now) (names_in names.now)) (map given_of given.now)) }
{
    let mut all = List::new(alloc);
    for g in given {
        all.push(state_item(alloc, names, g)?)?;
    }
    Ok(all)
}

/// Adds an item that gives 0, where there is none: a structure has an item.
fn add_nought(names: &Names, all: &mut List<PrismItem>) -> Result<(), AllocError>
    ensures { OnOk result (map prism.item_of all.new ≡ or_nought (file_in names.now) (names_in names.now) (map prism.item_of all.old)) }
{
    if all.len() > 0 {
        return Ok(());
    }
    all.push(PrismItem {
        on: ItemOn::InState,
        guard: truth(),
        value: counted(0),
    })?;
    Ok(())
}

/// A reward structure under a new name.
fn structure(
    alloc: Global,
    names: &Names,
    var: &OwnedVar,
    given: &[Given],
    gains: &[Gain],
    name: &str,
) -> Result<PrismRewards, AllocError>
    requires { IsReady names.now }
    ensures { IfOk result (λ r. prism.rewards_of r ≡ structure_by (file_in names.now) (names_in names.now) (owned_of var.now) (map given_of given.now) (map gain_of gains.now) name.now) }
{
    let mut items = items(alloc, names, given, gains)?;
    add_nought(names, &mut items)?;
    let name = instead(alloc, &var.var.name, name)?;
    Ok(PrismRewards {
        name: Some(name),
        items,
    })
}

/// The reward structures: numeric transient variables.
pub(crate) fn structures(
    alloc: Global,
    names: &Names,
    table: &GivenTable,
    gains: &NumberLists<Gain>,
    vars: &[OwnedVar],
) -> Result<List<PrismRewards>, AllocError>
    requires names { IsReady names.now }
    requires actions { HasActions names.now }
    requires given { AreGiven table.now (elements (file_in names.now)) }
    requires gains { (j : ℕ) → map gain_of (list_for gains.now j) ≡ numbered (λ i t. gains_of (file_in names.now) j i t.maker) 0 (targets (file_in names.now)) }
    ensures { IfOk result (λ all. map prism.rewards_of all ≡
        numbered (λ j o. structure (file_in names.now) (names_in names.now) j o (name_at (names_in names.now).rewards j) ∷ []) 0 (map owned_of vars.now)) }
{
    let mut all = List::new(alloc);
    add_structures(alloc, &mut all, names, table, gains, vars)?;
    Ok(all)
}

/// Adds the reward structures.
fn add_structures(
    alloc: Global,
    all: &mut List<PrismRewards>,
    names: &Names,
    table: &GivenTable,
    gains: &NumberLists<Gain>,
    vars: &[OwnedVar],
) -> Result<(), AllocError>
    requires names { IsReady names.now }
    requires actions { HasActions names.now }
    requires given { AreGiven table.now (elements (file_in names.now)) }
    requires gains { (j : ℕ) → map gain_of (list_for gains.now j) ≡ numbered (λ i t. gains_of (file_in names.now) j i t.maker) 0 (targets (file_in names.now)) }
    ensures { OnOk result (map prism.rewards_of all.new ≡ map prism.rewards_of all.old
        ++ numbered (λ j o. structure (file_in names.now) (names_in names.now) j o (name_at (names_in names.now).rewards j) ∷ []) 0 (map owned_of vars.now)) }
{
    for j in 0..vars.len() {
        let var = &vars[j];
        let name = name_at(names.entries.rewards, j);
        all.push(structure(alloc, names, var, table.given(var), gains.get(j), name)?)?;
    }
    Ok(())
}
