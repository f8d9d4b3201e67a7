// Who takes part in actions: modules whose commands have them, and the monitor, where items are for them.

ghost use Rattle.std.specs.Prelude.{◌≡◌, Some, ◌||◌, List, ℕ, map, IfOk, OnOk};
ghost use Rattle.std.specs.List.{list_any};
ghost use Rattle.process_core.specs.Ready.{same_label};
ghost use Rattle.prism_tree.specs.Syntax as prism;
ghost use Rattle.prism_tree.specs.Syntax.{file_of};
ghost use Rattle.name_table.specs.Asks.{action_of};
ghost use Rattle.name_rules.specs.Names.{has_name};
ghost use Rattle.name_table.specs.Gathered.{body_in};
ghost use Rattle.jani_translation.specs.Automata.{for_action};
ghost use Rattle.jani_translation.specs.Translated.{has_command};
ghost use Rattle.jani_edges.specs.Code.{ArePartners};

use name_rules::NameSet;
use name_table::commands_of;
use prism_tree::{ItemOn, PrismCommand, PrismFile, PrismItem, PrismModule, PrismRewards};
use std::alloc::{AllocError, Global};

/// The actions of each module's commands, and those that items are for.
#[derive(Drop)]
pub struct Partners<'a> {
    pub modules: Vec<NameSet<'a>>,
    pub items: NameSet<'a>,
}

impl<'a> Partners<'a> {
    /// Those of a file. `Err` is want of memory.
    pub fn of(alloc: Global, file: &'a PrismFile) -> Result<Partners<'a>, AllocError>
        ensures { IfOk result (λ p. ArePartners p (file_of file.now)) }
    {
        let modules = module_actions(alloc, file.modules.as_slice())?;
        let items = item_actions(alloc, file.rewards.as_slice())?;
        Ok(Partners { modules, items })
    }
}

/// The actions of each module's commands.
fn module_actions(alloc: Global, modules: &[PrismModule]) -> Result<Vec<NameSet>, AllocError>
    ensures { IfOk result (λ ts. (x : List ℕ) → map (λ t. has_name t x) ts.items ≡ map (has_command x) (map body_in modules.now)) }
{
    let mut all = Vec::new(alloc);
    for m in modules {
        all.push(command_actions(alloc, commands_of(m))?)?;
    }
    Ok(all)
}

/// The actions of commands.
fn command_actions(alloc: Global, commands: &[PrismCommand]) -> Result<NameSet, AllocError>
    ensures { IfOk result (λ t. (x : List ℕ) → has_name t x ≡ list_any (λ c. same_label (Some x) (action_of c)) (map prism.command_of commands.now)) }
{
    let mut seen = NameSet::new(alloc);
    for c in commands {
        note_action(&mut seen, c)?;
    }
    Ok(seen)
}

/// Adds the action of a command, if it has one.
fn note_action<'a>(seen: &mut NameSet<'a>, c: &'a PrismCommand) -> Result<(), AllocError>
    ensures { OnOk result ((x : List ℕ) → has_name seen.new x
        ≡ (has_name seen.old x || same_label (Some x) (action_of (prism.command_of c.now)))) }
{
    match &c.action {
        Some(a) => seen.add(a.name.as_str()),
        None => Ok(()),
    }
}

/// The actions that items are for. `Err` is want of memory.
pub fn item_actions(alloc: Global, rewards: &[PrismRewards]) -> Result<NameSet, AllocError>
    ensures { IfOk result (λ t. (x : List ℕ) → has_name t x ≡ list_any (λ r. list_any (λ i. for_action x i.on) r.items) (map prism.rewards_of rewards.now)) }
{
    let mut seen = NameSet::new(alloc);
    for r in rewards {
        note_items(&mut seen, r.items.as_slice())?;
    }
    Ok(seen)
}

/// Adds the actions that these items are for.
fn note_items<'a>(seen: &mut NameSet<'a>, items: &'a [PrismItem]) -> Result<(), AllocError>
    ensures { OnOk result ((x : List ℕ) → has_name seen.new x
        ≡ (has_name seen.old x || list_any (λ i. for_action x i.on) (map prism.item_of items.now))) }
{
    for i in items {
        note_item(seen, &i.on)?;
    }
    Ok(())
}

/// Adds the action that an item is for, if it is for one.
fn note_item<'a>(seen: &mut NameSet<'a>, on: &'a ItemOn) -> Result<(), AllocError>
    ensures { OnOk result ((x : List ℕ) → has_name seen.new x ≡ (has_name seen.old x || for_action x on.now)) }
{
    match on {
        ItemOn::Action(a) => seen.add(a.name.as_str()),
        _ => Ok(()),
    }
}
