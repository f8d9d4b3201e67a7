// Destinations as updates.

ghost use Rattle.std.specs.Prelude.{◌≡◌, ◌++◌, ◌∷◌, [], Some, map, IfOk, OnOk};
ghost use Rattle.std.specs.List.{flat_map};
ghost use Rattle.std.specs.Option.{option_map};
ghost use Rattle.op_trees.specs.Tree.{tree};
ghost use Rattle.prism_tree.specs.Syntax as prism;
ghost use Rattle.jani_tree.specs.Syntax as jani;
ghost use Rattle.edge_tables.specs.Modules.{write, write_by, location_write, weight, branch};
ghost use Rattle.module_parts.specs.Code.{file_in, names_in, IsReady, element_of, IsElement, is_one};

use crate::element::Element;
use crate::entries::{Names, name_at};
use crate::images::image;
use crate::parts::counted;
use bridge_io::{List, together};
use jani_tree::{JaniDestination, JaniExpr, JaniWrite};
use name_table::{instead, made};
use prism_tree::{PrismBranch, PrismExpr, PrismWrite};
use std::alloc::{AllocError, Global};

/// Adds an assignment, if it is to a variable that is not transient.
fn add_write(
    alloc: Global,
    all: &mut List<PrismWrite>,
    names: &Names,
    el: &Element,
    w: &JaniWrite,
) -> Result<(), AllocError>
    requires { IsReady names.now }
    ensures { OnOk result (map prism.write_of all.new ≡
        map prism.write_of all.old ++ write (file_in names.now) (names_in names.now) (element_of el.now) (jani.write_of w.now)) }
{
    if let Some(i) = names.lasting.place(el.number, w.target.name.as_str()) {
        all.push(write_to(alloc, names, el, i, w)?)?;
    }
    Ok(())
}

/// An assignment to the variable of this number.
fn write_to(
    alloc: Global,
    names: &Names,
    el: &Element,
    number: usize,
    w: &JaniWrite,
) -> Result<PrismWrite, AllocError>
    requires { IsReady names.now }
    ensures { IfOk result (λ r. prism.write_of r ∷ [] ≡
        write_by (file_in names.now) (names_in names.now) (element_of el.now) (Some number) (jani.write_of w.now)) }
{
    let name = instead(alloc, &w.target, name_at(names.entries.variables, number));
    let (name, value) = together(name, image(alloc, names, el.number, &w.value))?;
    Ok(PrismWrite { name, value })
}

/// The writes of a destination: that of the location, which comes first, and those of variables that are not transient.
fn writes(
    alloc: Global,
    names: &Names,
    el: &Element,
    d: &JaniDestination,
) -> Result<List<PrismWrite>, AllocError>
    requires names { IsReady names.now }
    requires element { IsElement el.now }
    ensures { IfOk result (λ all. map prism.write_of all ≡
        location_write (file_in names.now) (names_in names.now) (element_of el.now) (jani.destination_of d.now)
        ++ flat_map (write (file_in names.now) (names_in names.now) (element_of el.now)) (map jani.write_of d.now.writes)) }
{
    let mut all = location_writes(alloc, names, el, d)?;
    for w in d.writes.as_slice() {
        add_write(alloc, &mut all, names, el, w)?;
    }
    Ok(all)
}

/// The write of the location, where there are several.
fn location_writes(
    alloc: Global,
    names: &Names,
    el: &Element,
    d: &JaniDestination,
) -> Result<List<PrismWrite>, AllocError>
    requires element { IsElement el.now }
    ensures { IfOk result (λ all. map prism.write_of all ≡
        location_write (file_in names.now) (names_in names.now) (element_of el.now) (jani.destination_of d.now)) }
{
    let mut all = List::new(alloc);
    if el.has_several() {
        let name = made(alloc, name_at(names.entries.locations, el.number))?;
        let value = counted(el.location(d.location.name.as_str()));
        all.push(PrismWrite { name, value })?;
    }
    Ok(all)
}

/// The probability of a destination; a missing one is left out for a single destination, else it is 1.
fn weight(
    alloc: Global,
    names: &Names,
    el: &Element,
    single: bool,
    given: &Option<JaniExpr>,
) -> Result<Option<PrismExpr>, AllocError>
    requires { IsReady names.now }
    ensures { IfOk result (λ r. option_map tree r ≡
        weight (file_in names.now) (names_in names.now) (element_of el.now) single (option_map tree given.now)) }
{
    match given {
        Some(e) => Ok(Some(image(alloc, names, el.number, e)?)),
        None if single => Ok(None),
        None => Ok(Some(counted(1))),
    }
}

/// A destination as an update.
fn branch(
    alloc: Global,
    names: &Names,
    el: &Element,
    single: bool,
    d: &JaniDestination,
) -> Result<PrismBranch, AllocError>
    requires names { IsReady names.now }
    requires element { IsElement el.now }
    ensures { IfOk result (λ r. prism.branch_of r ≡
        branch (file_in names.now) (names_in names.now) (element_of el.now) single (jani.destination_of d.now)) }
{
    let weight = weight(alloc, names, el, single, &d.weight);
    let (weight, writes) = together(weight, writes(alloc, names, el, d))?;
    Ok(PrismBranch { weight, writes })
}

/// Destinations as updates. `Err` is want of memory.
pub fn branches(
    alloc: Global,
    names: &Names,
    el: &Element,
    destinations: &[JaniDestination],
) -> Result<List<PrismBranch>, AllocError>
    requires names { IsReady names.now }
    requires element { IsElement el.now }
    ensures { IfOk result (λ all. map prism.branch_of all ≡
        map (branch (file_in names.now) (names_in names.now) (element_of el.now) (is_one destinations.now))
        (map jani.destination_of destinations.now)) }
{
    let single = is_single(destinations);
    let mut all = List::new(alloc);
    for d in destinations {
        all.push(branch(alloc, names, el, single, d)?)?;
    }
    Ok(all)
}

/// Whether there is one destination.
fn is_single(destinations: &[JaniDestination]) -> bool
    ensures { result ≡ is_one destinations.now }
{
    destinations.len() == 1
}
