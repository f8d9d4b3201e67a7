// How many commands the modules of a file have, and how many different actions, copies too.

ghost use Rattle.std.specs.Prelude.{◌≡◌, ◌++◌, ◌∷◌, [], ℕ, List, map, length, unwrap_or, OnOk, IfOk, bytes_eq};
ghost use Rattle.std.specs.List.{flat_map, sum_by};
ghost use Rattle.op_trees.specs.Tree.{capped};
ghost use Rattle.process_core.specs.Ready.{firsts};
ghost use Rattle.prism_tree.specs.Syntax.{command_of, module_of};
ghost use Rattle.prism_check.specs.Counted.{actions_by, commands_by, pairs_of, renamed_action, HasEach};
ghost use Rattle.prism_check.specs.Tables.{module_under, new_name};

use crate::tables::{Modules, Renaming};
use crate::values::commands_in;
use prism_tree::{NamePair, PrismCommand, PrismModule};
use std::alloc::{AllocError, Global};
use std::collections::BTreeMap;

/// The number of commands of all modules; it stands at 2^64 - 1 where it would pass that.
pub(crate) fn count_commands<'a>(all: &'a [PrismModule], modules: &Modules<'a>) -> usize
    ensures { result ≡ capped (sum_by (λ m. length (commands_by (module_under modules.now) (module_of m))) all.now) }
{
    let mut count: usize = 0;
    for entry in all {
        count = count.saturating_add(commands_of(entry, modules).len());
    }
    count
}

// The commands of a module, before names are replaced.
fn commands_of<'a>(entry: &'a PrismModule, modules: &Modules<'a>) -> &'a [PrismCommand]
    ensures { map command_of result.now ≡ commands_by (module_under modules.now) (module_of entry.now) }
{
    match entry {
        PrismModule::Plain(m) => m.commands.as_slice(),
        PrismModule::Copied(m) => commands_in(modules.called(m.from.name.as_str())),
    }
}

/// The number of different actions of the commands of all modules.
pub(crate) fn count_actions<'a>(
    alloc: Global,
    all: &'a [PrismModule],
    modules: &Modules<'a>,
) -> Result<usize, AllocError>
    ensures { IfOk result
        (λ n. n ≡ length (firsts bytes_eq (flat_map (actions_by (module_under modules.now)) (map module_of all.now)))) }
{
    let mut actions = BTreeMap::new(alloc);
    for entry in all {
        add_actions(alloc, entry, modules, &mut actions)?;
    }
    let count = actions.len();
    drop(actions);
    Ok(count)
}

// Adds the actions of a module.
fn add_actions<'a>(
    alloc: Global,
    entry: &'a PrismModule,
    modules: &Modules<'a>,
    actions: &mut BTreeMap<&'a str, ()>,
) -> Result<(), AllocError>
    ensures { OnOk result
        ((ns : List (List ℕ)) → HasEach actions.old ns → HasEach actions.new (ns ++ actions_by (module_under modules.now) (module_of entry.now))) }
{
    let renaming = Renaming::of(alloc, pairs_of(entry))?;
    let added = add_renamed(commands_of(entry, modules), &renaming, actions);
    drop(renaming);
    added
}

// The pairs of a copy.
fn pairs_of(entry: &PrismModule) -> &[NamePair]
    ensures { result.now ≡ pairs_of (module_of entry.now) }
{
    match entry {
        PrismModule::Plain(_) => &[],
        PrismModule::Copied(m) => m.pairs.as_slice(),
    }
}

// Adds the actions of these commands, with their names replaced.
fn add_renamed<'a>(
    commands: &'a [PrismCommand],
    renaming: &Renaming<'a>,
    actions: &mut BTreeMap<&'a str, ()>,
) -> Result<(), AllocError>
    ensures { OnOk result
        ((ns : List (List ℕ)) → HasEach actions.old ns
        → HasEach actions.new (ns ++ flat_map (renamed_action (new_name renaming.now)) (map command_of commands.now))) }
{
    for command in commands {
        add_action(command, renaming, actions)?;
    }
    Ok(())
}

fn add_action<'a>(
    command: &'a PrismCommand,
    renaming: &Renaming<'a>,
    actions: &mut BTreeMap<&'a str, ()>,
) -> Result<(), AllocError>
    ensures { OnOk result
        ((ns : List (List ℕ)) → HasEach actions.old ns → HasEach actions.new (ns ++ renamed_action (new_name renaming.now) (command_of command.now))) }
{
    match &command.action {
        None => Ok(()),
        Some(action) => add_name(renamed(action.name.as_str(), renaming), actions),
    }
}

fn renamed<'a>(name: &'a str, renaming: &Renaming<'a>) -> &'a str
    ensures { result.now ≡ unwrap_or (new_name renaming.now name.now) name.now }
{
    match renaming.new_name(name) {
        Some(new) => new,
        None => name,
    }
}

fn add_name<'a>(name: &'a str, actions: &mut BTreeMap<&'a str, ()>) -> Result<(), AllocError>
    ensures { OnOk result ((ns : List (List ℕ)) → HasEach actions.old ns → HasEach actions.new (ns ++ name.now ∷ [])) }
{
    match actions.insert(name, ()) {
        Ok(_) => Ok(()),
        Err(_) => Err(AllocError),
    }
}
