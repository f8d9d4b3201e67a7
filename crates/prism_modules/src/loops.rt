// The commands of the loops of an element, each of which is made for its commands and let go.

ghost use Rattle.std.specs.Prelude.{◌≡◌, ◌++◌, List as ListOf, ℕ, length, map, OnOk};
ghost use Rattle.std.specs.List.{filter, flat_map};
ghost use Rattle.op_trees.specs.Names.{is_called};
ghost use Rattle.gathering.specs.Lists.{list_under};
ghost use Rattle.prism_tree.specs.Syntax as prism;
ghost use Rattle.jani_tree.specs.Syntax.{automaton_of, location_of};
ghost use Rattle.jani_meaning.specs.Loops.{has_name};
ghost use Rattle.jani_loops.specs.Looped.{lent_edge, loop_with};
ghost use Rattle.module_parts.specs.Code.{IsReady, element_of, IsElement};
ghost use Rattle.prism_modules.specs.Commands.{target_commands, loops_commands};

use crate::served::add_target_commands;
use bridge_io::{List, Named};
use gathering::NameLists;
use jani_loops::{edges_by_action, edges_by_location, loop_at};
use jani_tree::JaniEdge;
use module_parts::{Element, Names};
use prism_tree::PrismCommand;
use std::alloc::{AllocError, Global};

/// Adds the commands of a loop for the targets of these numbers, where these are the element's own edges with its action at its location.
fn add_loop(
    alloc: Global,
    all: &mut List<PrismCommand>,
    names: &Names,
    el: &Element,
    action: &Named,
    location: &Named,
    edges: &[&JaniEdge],
    targets: &[usize],
) -> Result<(), AllocError>
    requires names { IsReady names.now }
    requires element { IsElement el.now }
    ensures { OnOk result (map prism.command_of all.new ≡ map prism.command_of all.old
        ++ target_commands names.now (element_of el.now) (loop_with action.now location.now (map lent_edge edges.now)) targets.now) }
{
    let made = loop_at(alloc, action, location, edges)?;
    add_target_commands(alloc, all, names, el, &made, targets)
}

/// Adds the commands of the loops with an action for the targets of these numbers, where these are the element's own edges with it, by
/// their locations.
fn add_loops_at(
    alloc: Global,
    all: &mut List<PrismCommand>,
    names: &Names,
    el: &Element,
    action: &Named,
    edges: &NameLists<&JaniEdge>,
    targets: &[usize],
) -> Result<(), AllocError>
    requires names { IsReady names.now }
    requires element { IsElement el.now }
    ensures { OnOk result (map prism.command_of all.new ≡ map prism.command_of all.old
        ++ flat_map (λ l. target_commands names.now (element_of el.now) (loop_with action.now l.name (map lent_edge (list_under edges.now l.name.name))) targets.now)
        (automaton_of el.now.automaton.automaton.now).locations) }
{
    for l in el.automaton.automaton.locations.as_slice() {
        let here = edges.get(l.name.name.as_str());
        add_loop(alloc, all, names, el, action, &l.name, here, targets)?;
    }
    Ok(())
}

/// Adds the commands of the loops with an action for the targets of these numbers, where these are the element's own edges with it. No loop
/// is made where there is no target.
fn add_loops_with(
    alloc: Global,
    all: &mut List<PrismCommand>,
    names: &Names,
    el: &Element,
    action: &Named,
    edges: &[&JaniEdge],
    targets: &[usize],
) -> Result<(), AllocError>
    requires names { IsReady names.now }
    requires element { IsElement el.now }
    ensures { OnOk result (map prism.command_of all.new ≡ map prism.command_of all.old
        ++ flat_map (λ l. target_commands names.now (element_of el.now) (loop_with action.now l.name (filter (λ e. is_called l.name.name e.location) (map lent_edge edges.now))) targets.now)
        (automaton_of el.now.automaton.automaton.now).locations) }
{
    if targets.is_empty() {
        return Ok(());
    }
    let here = edges_by_location(alloc, edges)?;
    add_loops_at(alloc, all, names, el, action, &here, targets)
}

/// Adds the commands of the loops of an element, by what those with each action serve.
pub(crate) fn add_loop_commands(
    alloc: Global,
    all: &mut List<PrismCommand>,
    names: &Names,
    el: &Element,
    loops: &[Vec<usize>],
) -> Result<(), AllocError>
    requires names { IsReady names.now }
    requires element { IsElement el.now }
    requires many { length loops.now ≡ length el.now.automaton.accepts.now }
    ensures { OnOk result (map prism.command_of all.new ≡ map prism.command_of all.old
        ++ loops_commands names.now (element_of el.now) (automaton_of el.now.automaton.automaton.now) el.now.automaton.accepts.now loops.now) }
{
    if loops.is_empty() {
        return Ok(());
    }
    let acting = edges_by_action(alloc, el.automaton.automaton.edges.as_slice())?;
    add_each_loop(alloc, all, names, el, &acting, loops)
}

/// The same, where these are its own edges by their actions.
fn add_each_loop(
    alloc: Global,
    all: &mut List<PrismCommand>,
    names: &Names,
    el: &Element,
    acting: &NameLists<&JaniEdge>,
    loops: &[Vec<usize>],
) -> Result<(), AllocError>
    requires names { IsReady names.now }
    requires element { IsElement el.now }
    requires many { length loops.now ≡ length el.now.automaton.accepts.now }
    requires acting { (x : ListOf ℕ) → map lent_edge (list_under acting.now x) ≡ filter (λ e. has_name x e.action) (automaton_of el.now.automaton.automaton.now).edges }
    ensures { OnOk result (map prism.command_of all.new ≡ map prism.command_of all.old
        ++ loops_commands names.now (element_of el.now) (automaton_of el.now.automaton.automaton.now) el.now.automaton.accepts.now loops.now) }
{
    let accepts = el.automaton.accepts;
    for i in 0..accepts.len() {
        let edges = acting.get(accepts[i].name.as_str());
        add_loops_with(
            alloc,
            all,
            names,
            el,
            &accepts[i],
            edges,
            loops[i].as_slice(),
        )?;
    }
    Ok(())
}
