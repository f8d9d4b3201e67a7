//! Modules sorted by the actions of their commands, and the links of each action.
ghost use Rattle.std.specs.Prelude.{◌≡◌, ◌++◌, ℕ, IfOk, List as ListOf, None, OnOk, bytes_eq, length, map, unwrap_or};
ghost use Rattle.std.specs.List.{filter, flat_map, position_or_len};
ghost use Rattle.basics.specs.Options.{if_some};
ghost use Rattle.gathering.specs.Lists.{list_under};
ghost use Rattle.name_rules.specs.Names.{under};
ghost use Rattle.process_core.specs.Instance.{numbered};
ghost use Rattle.prism_check.specs.Moment.{action_of};
ghost use Rattle.prism_names.specs.Names.{unchanged};
ghost use Rattle.prism_tree.specs.Syntax.{command_of, module_of};
ghost use Rattle.prism_instance.specs.Shapes.{acting, acts, bodies, own_commands};
ghost use Rattle.prism_instance.specs.Sites.{acted_by, acted_of, actions_in, acts_of, link_if, links_among, number_among, sorted, sorted_of, texts_of};
ghost use Rattle.prism_instance.specs.Views.{commands_of};

use crate::data::{Acted, Sorted};
use bridge_io::Text;
use gathering::{NameLists, each_once, keep_if};
use name_rules::NameMap;
use network::Link;
use prism_tree::{PrismCommand, PrismModule};
use std::alloc::{AllocError, Global};

/// Modules, each sorted by the actions of its commands.
pub(crate) fn sorted_modules<'a>(
    alloc: Global,
    modules: &'a [PrismModule],
) -> Result<Vec<Sorted<'a>>, AllocError>
    ensures { IfOk result (λ ss. map sorted_of ss.items ≡ map sorted (bodies (map module_of modules.now))) }
{
    let mut all = Vec::with_capacity(alloc, modules.len())?;
    for one in modules {
        let module = sorted(alloc, own_commands(one))?;
        all.push(module)?;
    }
    Ok(all)
}

/// The commands of a module.
fn own_commands(one: &PrismModule) -> &[PrismCommand]
    ensures { map command_of result.now ≡ own_commands (module_of one.now) }
{
    match one {
        PrismModule::Plain(body) => body.commands.as_slice(),
        PrismModule::Copied(_) => &[],
    }
}

/// Commands sorted by their actions.
fn sorted<'a>(alloc: Global, commands: &'a [PrismCommand]) -> Result<Sorted<'a>, AllocError>
    ensures { IfOk result (λ s. sorted_of s ≡ sorted (map command_of commands.now)) }
{
    let actions = actions_of(alloc, commands)?;
    let acting = acting_commands(alloc, commands, actions.as_slice())?;
    let silent = silent_commands(alloc, commands)?;
    Ok(Sorted {
        silent,
        acting,
        actions,
    })
}

/// The actions of commands, each once, in order of first occurrence.
fn actions_of<'a>(alloc: Global, commands: &'a [PrismCommand]) -> Result<Vec<&'a Text>, AllocError>
    ensures { IfOk result (λ xs. texts_of xs.items ≡ acts_of (map command_of commands.now)) }
{
    let mut occurring = Vec::new(alloc);
    for command in commands {
        match &command.action {
            Some(action) => occurring.push(&action.name)?,
            None => {}
        }
    }
    let all = each_once(alloc, occurring.as_slice())?;
    Ok(all)
}

/// The commands without action.
fn silent_commands<'a>(
    alloc: Global,
    commands: &'a [PrismCommand],
) -> Result<Vec<&'a PrismCommand>, AllocError>
    ensures { IfOk result (λ cs. commands_of cs.items ≡ filter (acts None) (map command_of commands.now)) }
{
    let mut these = Vec::new(alloc);
    for command in commands {
        let wanted = is_silent(command);
        keep_if(&mut these, wanted, command)?;
    }
    Ok(these)
}

fn is_silent(command: &PrismCommand) -> bool
    ensures { result ≡ acts None (command_of command.now) }
{
    command.action.is_none()
}

/// The commands with an action, each with the number of its own among these.
fn acting_commands<'a>(
    alloc: Global,
    commands: &'a [PrismCommand],
    actions: &[&'a Text],
) -> Result<Vec<Acted<'a>>, AllocError>
    ensures { IfOk result (λ xs. map acted_of xs.items ≡ flat_map (acted_by (number_among (texts_of actions.now))) (map command_of commands.now)) }
{
    let numbers = numbers_of(alloc, actions)?;
    let mut all = Vec::new(alloc);
    for command in commands {
        add_acting(command, &numbers, actions.len(), &mut all)?;
    }
    Ok(all)
}

/// A command besides, if it has an action: with the number of that, or else this one.
fn add_acting<'a>(
    command: &'a PrismCommand,
    numbers: &NameMap<usize>,
    other: usize,
    all: &mut Vec<Acted<'a>>,
) -> Result<(), AllocError>
    ensures { OnOk result (map acted_of all.new.items
        ≡ map acted_of all.old.items ++ acted_by (λ x. unwrap_or (under numbers.now x) other) (command_of command.now)) }
{
    match &command.action {
        None => Ok(()),
        Some(name) => {
            let action = numbers.get(name.name.as_str()).unwrap_or(other);
            all.push(Acted { action, command })?;
            Ok(())
        }
    }
}

/// The number of each action; none where it isn't among these.
fn numbers_of<'a>(alloc: Global, actions: &[&'a Text]) -> Result<NameMap<'a, usize>, AllocError>
    ensures { IfOk result (λ m. (x : ListOf ℕ) → unwrap_or (under m x) (length actions.now) ≡ number_among (texts_of actions.now) x) }
{
    let mut numbers = NameMap::new(alloc);
    for (k, name) in actions.iter().enumerate() {
        numbers.put_first(name.as_str(), k)?;
    }
    Ok(numbers)
}

/// The actions of all modules, each once, in order of first occurrence.
pub(crate) fn acting<'a>(
    alloc: Global,
    modules: &'a [PrismModule],
) -> Result<Vec<&'a Text>, AllocError>
    ensures { IfOk result (λ xs. texts_of xs.items ≡ acting (bodies (map module_of modules.now))) }
{
    let mut occurring = Vec::new(alloc);
    for one in modules {
        add_actions(own_commands(one), &mut occurring)?;
    }
    let all = each_once(alloc, occurring.as_slice())?;
    Ok(all)
}

fn add_actions<'a>(commands: &'a [PrismCommand], all: &mut Vec<&'a Text>) -> Result<(), AllocError>
    ensures { IfOk result (λ u. texts_of all.new.items ≡ texts_of all.old.items ++ flat_map (λ c. if_some (action_of unchanged c)) (map command_of commands.now)) }
{
    for command in commands {
        match &command.action {
            Some(action) => all.push(&action.name)?,
            None => {}
        }
    }
    Ok(())
}

/// Under each action the links to the modules that have it, in order.
pub(crate) fn links<'a>(
    alloc: Global,
    modules: &[Sorted<'a>],
) -> Result<NameLists<'a, Link>, AllocError>
    ensures { IfOk result (λ t. (x : ListOf ℕ) → list_under t x ≡ links_among x (map actions_in modules.now)) }
{
    let mut links = NameLists::new(alloc);
    for (component, one) in modules.iter().enumerate() {
        add_links(alloc, component, one.actions.as_slice(), &mut links)?;
    }
    Ok(links)
}

/// A link to this component under each of its actions.
fn add_links<'a>(
    alloc: Global,
    component: usize,
    actions: &[&'a Text],
    links: &mut NameLists<'a, Link>,
) -> Result<(), AllocError>
    ensures { OnOk result ((x : ListOf ℕ) → list_under links.new x ≡ list_under links.old x ++ numbered (link_if x component) 0 (texts_of actions.now)) }
{
    for (part, name) in actions.iter().enumerate() {
        links.add(alloc, name.as_str(), Link { component, part })?;
    }
    Ok(())
}
