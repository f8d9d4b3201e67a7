// Commands as edges.

ghost use Rattle.std.specs.Prelude.{◌≡◌, map, IfOk};
ghost use Rattle.prism_tree.specs.Syntax as prism;
ghost use Rattle.jani_tree.specs.Syntax as jani;
ghost use Rattle.jani_translation.specs.Automata.{write, destination, edge_action, edge};
ghost use Rattle.jani_edges.specs.Code.{names_in};

use crate::new_names::Names;
use crate::own_names::{loc, zz_silent};
use crate::values::image_if;
use bridge_io::{List, Named, together};
use jani_tree::{JaniDestination, JaniEdge, JaniWrite};
use name_table::instead;
use prism_images::{NewNames, image};
use prism_tree::{PrismBranch, PrismCommand, PrismWrite};
use std::alloc::{AllocError, Global};

/// What is written.
fn write(alloc: Global, w: &PrismWrite, names: &Names) -> Result<JaniWrite, AllocError>
    ensures { IfOk result (λ r. jani.write_of r ≡ write (names_in names.now) (prism.write_of w.now)) }
{
    let new = names.value.new_name(w.name.name.as_str());
    let name = instead(alloc, &w.name, new);
    let (target, value) = together(name, image(alloc, &w.value, &names.value))?;
    Ok(JaniWrite { target, value })
}

/// What is written in a branch.
fn writes(alloc: Global, list: &[PrismWrite], names: &Names) -> Result<List<JaniWrite>, AllocError>
    ensures { IfOk result (λ all. map jani.write_of all ≡ map (write (names_in names.now)) (map prism.write_of list.now)) }
{
    let mut all = List::new(alloc);
    for w in list {
        all.push(write(alloc, w, names)?)?;
    }
    Ok(all)
}

/// A branch without probability gives a destination without one.
fn destination(alloc: Global, b: &PrismBranch, names: &Names) -> Result<JaniDestination, AllocError>
    ensures { IfOk result (λ r. jani.destination_of r ≡ destination (names_in names.now) (prism.branch_of b.now)) }
{
    let place = together(loc(alloc), writes(alloc, b.writes.as_slice(), names));
    let weight = image_if(alloc, &b.weight, &names.value);
    let ((location, writes), weight) = together(place, weight)?;
    Ok(JaniDestination {
        location,
        writes,
        weight,
    })
}

/// The destinations of a command.
fn destinations(
    alloc: Global,
    branches: &[PrismBranch],
    names: &Names,
) -> Result<List<JaniDestination>, AllocError>
    ensures { IfOk result (λ all. map jani.destination_of all ≡ map (destination (names_in names.now)) (map prism.branch_of branches.now)) }
{
    let mut all = List::new(alloc);
    for b in branches {
        all.push(destination(alloc, b, names)?)?;
    }
    Ok(all)
}

/// The action of a command without one is `zz_silent`, where the monitor earns rewards for it.
fn edge_action(
    alloc: Global,
    silently: bool,
    action: &Option<Named>,
    names: &Names,
) -> Result<Option<Named>, AllocError>
    ensures { IfOk result (λ r. r ≡ edge_action (names_in names.now) silently action.now) }
{
    match action {
        Some(a) => {
            let new = names.action.new_name(a.name.as_str());
            Ok(Some(instead(alloc, a, new)?))
        }
        None => {
            if silently {
                Ok(Some(zz_silent(alloc)?))
            } else {
                Ok(None)
            }
        }
    }
}

/// A command gives an edge, always with its guard.
fn edge(
    alloc: Global,
    silently: bool,
    c: &PrismCommand,
    names: &Names,
) -> Result<JaniEdge, AllocError>
    ensures { IfOk result (λ r. jani.edge_of r ≡ edge (names_in names.now) silently (prism.command_of c.now)) }
{
    let start = together(loc(alloc), edge_action(alloc, silently, &c.action, names));
    let end = together(
        destinations(alloc, c.branches.as_slice(), names),
        image(alloc, &c.guard, &names.value),
    );
    let ((location, action), (destinations, guard)) = together(start, end)?;
    Ok(JaniEdge {
        location,
        action,
        destinations,
        guard: Some(guard),
        at: 0,
    })
}

/// The edges of a module. `Err` is want of memory.
pub fn edges(
    alloc: Global,
    silently: bool,
    commands: &[PrismCommand],
    names: &Names,
) -> Result<List<JaniEdge>, AllocError>
    ensures { IfOk result (λ all. map jani.edge_of all ≡ map (edge (names_in names.now) silently) (map prism.command_of commands.now)) }
{
    let mut all = List::new(alloc);
    for c in commands {
        all.push(edge(alloc, silently, c, names)?)?;
    }
    Ok(all)
}
