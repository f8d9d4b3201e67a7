// The commands of an element, by what its edges serve.

ghost use Rattle.std.specs.Prelude.{◌≡◌, ◌++◌, Some, None, length, map, IfOk, OnOk};
ghost use Rattle.prism_tree.specs.Syntax as prism;
ghost use Rattle.process_core.specs.Instance.{only_if};
ghost use Rattle.jani_tree.specs.Syntax as jani;
ghost use Rattle.name_table.specs.PrismAsks.{name_at};
ghost use Rattle.prism_targets.specs.Modules.{command, commands};
ghost use Rattle.module_parts.specs.Code.{file_in, names_in, IsReady, element_of, IsElement, HasActions};
ghost use Rattle.prism_modules.specs.Commands.{target_commands, commands_by, edge_commands, never};
ghost use Rattle.prism_targets.specs.Code.{edge_served, element_served, shape_of, shape_served};
ghost use Rattle.prism_targets.specs.Serving.{served_in};

use crate::commands::command;
use crate::loops::add_loop_commands;
use bridge_io::{List, together};
use gathering::one_of;
use jani_tree::JaniEdge;
use module_parts::{Element, Names, falsehood, name_at};
use name_table::made;
use prism_targets::{EdgeServing, ElementServing};
use prism_tree::{PrismBranch, PrismCommand};
use std::alloc::{AllocError, Global};

/// Adds the commands of an edge: one for each target that it serves, and one without action, if it serves the empty action.
fn add_commands_of(
    alloc: Global,
    all: &mut List<PrismCommand>,
    names: &Names,
    el: &Element,
    e: &JaniEdge,
    serving: &EdgeServing,
) -> Result<(), AllocError>
    requires names { IsReady names.now }
    requires element { IsElement el.now }
    ensures { OnOk result (map prism.command_of all.new ≡
        map prism.command_of all.old ++ commands_by names.now (element_of el.now) (jani.edge_of e.now) serving.now.targets.items serving.now.silent) }
{
    add_target_commands(alloc, all, names, el, e, serving.targets.as_slice())?;
    add_silent_command(alloc, all, names, el, e, serving.silent)
}

/// Adds the commands of an edge for the targets of these numbers.
pub(crate) fn add_target_commands(
    alloc: Global,
    all: &mut List<PrismCommand>,
    names: &Names,
    el: &Element,
    e: &JaniEdge,
    targets: &[usize],
) -> Result<(), AllocError>
    requires names { IsReady names.now }
    requires element { IsElement el.now }
    ensures { OnOk result (map prism.command_of all.new ≡ map prism.command_of all.old ++ target_commands names.now (element_of el.now) (jani.edge_of e.now) targets.now) }
{
    for t in targets {
        all.push(target_command(alloc, names, el, e, *t)?)?;
    }
    Ok(())
}

/// Adds the command of an edge without action, if it is wanted.
fn add_silent_command(
    alloc: Global,
    all: &mut List<PrismCommand>,
    names: &Names,
    el: &Element,
    e: &JaniEdge,
    wanted: bool,
) -> Result<(), AllocError>
    requires names { IsReady names.now }
    requires element { IsElement el.now }
    ensures { OnOk result (map prism.command_of all.new ≡ map prism.command_of all.old
        ++ only_if wanted (command (file_in names.now) (names_in names.now) (element_of el.now) (jani.edge_of e.now) None)) }
{
    if wanted {
        all.push(command(alloc, names, el, e, None)?)?;
    }
    Ok(())
}

/// The command of an edge for the target of this number.
fn target_command(
    alloc: Global,
    names: &Names,
    el: &Element,
    e: &JaniEdge,
    target: usize,
) -> Result<PrismCommand, AllocError>
    requires names { IsReady names.now }
    requires element { IsElement el.now }
    ensures { IfOk result (λ r. prism.command_of r ≡
        command (file_in names.now) (names_in names.now) (element_of el.now) (jani.edge_of e.now) (Some (name_at (names_in names.now).actions target))) }
{
    let action = made(alloc, name_at(names.entries.actions, target))?;
    command(alloc, names, el, e, Some(action))
}

/// A command that is never enabled.
fn blocking(alloc: Global, name: &str) -> Result<PrismCommand, AllocError>
    ensures { IfOk result (λ r. prism.command_of r ≡ never name.now) }
{
    let branch = PrismBranch {
        weight: None,
        writes: List::new(alloc),
    };
    let (action, branches) = together(made(alloc, name), one_of(alloc, Ok(branch)))?;
    Ok(PrismCommand {
        action: Some(action),
        guard: falsehood(),
        branches,
    })
}

/// Adds commands that block the targets of these numbers.
fn add_blocking(
    alloc: Global,
    all: &mut List<PrismCommand>,
    names: &Names,
    blocked: &[usize],
) -> Result<(), AllocError>
    ensures { OnOk result (map prism.command_of all.new ≡
        map prism.command_of all.old ++ map (λ i. never (name_at (names_in names.now).actions i)) blocked.now) }
{
    for t in blocked {
        all.push(blocking(alloc, name_at(names.entries.actions, *t))?)?;
    }
    Ok(())
}

/// The commands of an element's own edges, in order.
fn edge_commands(
    alloc: Global,
    names: &Names,
    el: &Element,
    serving: &[EdgeServing],
) -> Result<List<PrismCommand>, AllocError>
    requires names { IsReady names.now }
    requires element { IsElement el.now }
    requires many { length serving.now ≡ length el.now.automaton.automaton.now.edges }
    ensures { IfOk result (λ all. map prism.command_of all ≡
        edge_commands names.now (element_of el.now) (map jani.edge_of el.now.automaton.automaton.now.edges) (map edge_served serving.now)) }
{
    let edges = el.automaton.automaton.edges.as_slice();
    let mut all = List::new(alloc);
    for i in 0..edges.len() {
        add_commands_of(alloc, &mut all, names, el, &edges[i], &serving[i])?;
    }
    Ok(all)
}

/// The commands of an element: those of its own edges, those of its loops, and those that block.
pub(crate) fn commands(
    alloc: Global,
    names: &Names,
    el: &Element,
    serving: &ElementServing,
) -> Result<List<PrismCommand>, AllocError>
    requires names { IsReady names.now }
    requires element { IsElement el.now }
    requires actions { HasActions names.now }
    requires shape { shape_served serving.now ≡ shape_of el.now.automaton }
    requires serving { element_served serving.now ≡ served_in (file_in names.now) (element_of el.now) }
    ensures { IfOk result (λ all. map prism.command_of all ≡ commands (file_in names.now) (names_in names.now) (element_of el.now)) }
{
    let mut all = edge_commands(alloc, names, el, serving.edges.as_slice())?;
    add_loop_commands(alloc, &mut all, names, el, serving.loops.as_slice())?;
    add_blocking(alloc, &mut all, names, serving.blocked.as_slice())?;
    Ok(all)
}
