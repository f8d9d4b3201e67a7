// Elements as modules.

ghost use Rattle.std.specs.Prelude.{◌≡◌, ◌++◌, ℕ, Some, map, IfOk};
ghost use Rattle.std.specs.Option.{option_map};
ghost use Rattle.std.specs.List.{All};
ghost use Rattle.op_trees.specs.Tree.{tree};
ghost use Rattle.jani_meaning.specs.Elements.{initial_number};
ghost use Rattle.jani_meaning.specs.Scene.{has_condition};
ghost use Rattle.prism_tree.specs.Syntax as prism;
ghost use Rattle.prism_tree.specs.Syntax.{plain};
ghost use Rattle.process_core.specs.Instance.{only_if};
ghost use Rattle.prism_targets.specs.Elements.{elements, has_several, at_home};
ghost use Rattle.prism_targets.specs.Parts.{counted, location_variable, start_under, variable};
ghost use Rattle.prism_targets.specs.Modules.{module_of};
ghost use Rattle.prism_targets.specs.Code.{element_served, shape_of, shape_served};
ghost use Rattle.prism_targets.specs.Serving.{served_in};
ghost use Rattle.gathering.specs.Lists.{list_for};
ghost use Rattle.prism_modules.specs.Shapes.{FitElements};
ghost use Rattle.module_parts.specs.Code.{file_in, names_in, IsReady, element_of, IsElement, HasActions, lasting_of};

use crate::served::commands;
use bridge_io::List;
use gathering::NumberLists;
use module_parts::{Element, LastingVar, Names, counted, name_at, variable};
use name_table::made;
use prism_targets::ElementServing;
use prism_tree::{PlainModule, PrismExpr, PrismModule, PrismRange, PrismVar};
use std::alloc::{AllocError, Global};

/// The location that an element begins in, in a file without an initial condition.
fn location_start(names: &Names, el: &Element) -> Option<PrismExpr>
    requires names { IsReady names.now }
    requires element { IsElement el.now }
    ensures { option_map tree result ≡
        start_under (file_in names.now) (names_in names.now) (has_condition (file_in names.now)) (Some (counted (initial_number (element_of el.now).automaton))) }
{
    if names.has_condition {
        return None;
    }
    Some(counted(el.initial()))
}

/// The location variable of an element counts its locations from 0 on.
fn location_variable(alloc: Global, names: &Names, el: &Element) -> Result<PrismVar, AllocError>
    requires names { IsReady names.now }
    requires element { IsElement el.now }
    ensures { IfOk result (λ r. prism.var_of r ≡ location_variable (file_in names.now) (names_in names.now) (element_of el.now)) }
{
    let last = el.automaton.locations().len().saturating_sub(1);
    Ok(PrismVar {
        name: made(alloc, name_at(names.entries.locations, el.number))?,
        range: Some(PrismRange {
            low: counted(0),
            high: counted(last),
        }),
        start: location_start(names, el),
    })
}

/// The variables of a module: the location, where there are several, and then those that are at home there.
fn module_variables(
    alloc: Global,
    names: &Names,
    el: &Element,
    home: &[LastingVar],
) -> Result<List<PrismVar>, AllocError>
    requires names { IsReady names.now }
    requires element { IsElement el.now }
    ensures { IfOk result (λ all. map prism.var_of all ≡
        only_if (has_several (element_of el.now)) (location_variable (file_in names.now) (names_in names.now) (element_of el.now))
        ++ map (variable (file_in names.now) (names_in names.now)) (map lasting_of home.now)) }
{
    let mut all = location_variables(alloc, names, el)?;
    for x in home {
        all.push(variable(alloc, names, x)?)?;
    }
    Ok(all)
}

/// The location variable, where there are several locations.
fn location_variables(
    alloc: Global,
    names: &Names,
    el: &Element,
) -> Result<List<PrismVar>, AllocError>
    requires names { IsReady names.now }
    requires element { IsElement el.now }
    ensures { IfOk result (λ all. map prism.var_of all ≡
        only_if (has_several (element_of el.now)) (location_variable (file_in names.now) (names_in names.now) (element_of el.now))) }
{
    let mut all = List::new(alloc);
    if el.has_several() {
        all.push(location_variable(alloc, names, el)?)?;
    }
    Ok(all)
}

/// An element as a module.
fn module(
    alloc: Global,
    names: &Names,
    el: &Element,
    home: &[LastingVar],
    serving: &ElementServing,
) -> Result<PrismModule, AllocError>
    requires names { IsReady names.now }
    requires element { IsElement el.now }
    requires actions { HasActions names.now }
    requires home { map lasting_of home.now ≡ at_home (file_in names.now) (element_of el.now).number }
    requires shape { shape_served serving.now ≡ shape_of el.now.automaton }
    requires serving { element_served serving.now ≡ served_in (file_in names.now) (element_of el.now) }
    ensures { IfOk result (λ r. prism.module_of r ≡ plain (module_of (file_in names.now) (names_in names.now) (element_of el.now))) }
{
    let vars = module_variables(alloc, names, el, home)?;
    let commands = commands(alloc, names, el, serving)?;
    let name = made(alloc, name_at(names.entries.modules, el.number))?;
    Ok(PrismModule::Plain(PlainModule {
        name,
        vars,
        commands,
    }))
}

/// The elements as modules, in order.
pub fn modules(
    alloc: Global,
    names: &Names,
    els: &[Element],
    homes: &NumberLists<LastingVar>,
    serving: &[ElementServing],
) -> Result<List<PrismModule>, AllocError>
    requires names { IsReady names.now }
    requires actions { HasActions names.now }
    requires elements { map element_of els.now ≡ elements (file_in names.now) }
    requires located { All IsElement els.now }
    requires homes { (k : ℕ) → map lasting_of (list_for homes.now k) ≡ at_home (file_in names.now) k }
    requires shapes { FitElements serving.now els.now }
    requires serving { map element_served serving.now ≡ map (served_in (file_in names.now)) (elements (file_in names.now)) }
    ensures { IfOk result (λ all. map prism.module_of all ≡
        map (λ el. plain (module_of (file_in names.now) (names_in names.now) el)) (elements (file_in names.now))) }
{
    let mut all = List::new(alloc);
    for i in 0..els.len() {
        all.push(module(alloc, names, &els[i], homes.get(els[i].number), &serving[i])?)?;
    }
    Ok(all)
}
