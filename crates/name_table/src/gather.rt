// What a file has in all its modules: variables and actions.

ghost use Rattle.std.specs.Prelude.{◌≡◌, map, IfOk};
ghost use Rattle.std.specs.List.{flat_map};
ghost use Rattle.basics.specs.Options.{if_some};
ghost use Rattle.prism_tree.specs.Syntax.{file_of, var_of, command_of};
ghost use Rattle.name_table.specs.Asks.{variables, actions, action_of};
ghost use Rattle.name_table.specs.Gathered.{body_in};

use bridge_io::{Named, Text};
use gathering::each_once;
use prism_tree::{PrismCommand, PrismFile, PrismModule, PrismVar};
use std::alloc::{AllocError, Global};

/// The name of a module.
pub fn name_of(m: &PrismModule) -> &Named
    ensures { result.now ≡ (body_in m.now).name }
{
    match m {
        PrismModule::Plain(m) => &m.name,
        PrismModule::Copied(m) => &m.name,
    }
}

/// The variables of a module; a copy has none of its own.
fn vars_of(m: &PrismModule) -> &[PrismVar]
    ensures { map var_of result.now ≡ (body_in m.now).vars }
{
    match m {
        PrismModule::Plain(m) => m.vars.as_slice(),
        PrismModule::Copied(_) => &[],
    }
}

/// The commands of a module; a copy has none of its own.
pub fn commands_of(m: &PrismModule) -> &[PrismCommand]
    ensures { map command_of result.now ≡ (body_in m.now).commands }
{
    match m {
        PrismModule::Plain(m) => m.commands.as_slice(),
        PrismModule::Copied(_) => &[],
    }
}

/// The variables in the order of columns: the global ones, then those of the modules.
pub fn variables(alloc: Global, file: &PrismFile) -> Result<Vec<&PrismVar>, AllocError>
    ensures { IfOk result (λ xs. map (λ x. var_of x.now) xs.items ≡ variables (file_of file.now)) }
{
    let mut all = references(alloc, file.globals.as_slice())?;
    for m in file.modules.as_slice() {
        let mut own = references(alloc, vars_of(m))?;
        all.append(&mut own)?;
    }
    Ok(all)
}

/// Each of these variables.
fn references(alloc: Global, vars: &[PrismVar]) -> Result<Vec<&PrismVar>, AllocError>
    ensures { IfOk result (λ xs. map (λ x. var_of x.now) xs.items ≡ map var_of vars.now) }
{
    let mut all = Vec::new(alloc);
    for x in vars {
        all.push(x)?;
    }
    Ok(all)
}

/// The actions of commands, in order of first occurrence.
pub fn actions(alloc: Global, file: &PrismFile) -> Result<Vec<&Text>, AllocError>
    ensures { IfOk result (λ xs. map (λ x. x.now) xs.items ≡ actions (file_of file.now)) }
{
    let occurring = occurring(alloc, file.modules.as_slice())?;
    let all = each_once(alloc, occurring.as_slice())?;
    Ok(all)
}

/// The actions of all commands, in order.
fn occurring<'a>(alloc: Global, modules: &'a [PrismModule]) -> Result<Vec<&'a Text>, AllocError>
    ensures { IfOk result (λ xs. map (λ x. x.now) xs.items ≡
        flat_map (λ m. flat_map (λ c. if_some (action_of c)) m.commands) (map body_in modules.now)) }
{
    let mut all = Vec::new(alloc);
    for m in modules {
        let mut these = actions_in(alloc, commands_of(m))?;
        all.append(&mut these)?;
    }
    Ok(all)
}

/// The actions of the commands of a module, in order.
fn actions_in<'a>(alloc: Global, commands: &'a [PrismCommand]) -> Result<Vec<&'a Text>, AllocError>
    ensures { IfOk result (λ xs. map (λ x. x.now) xs.items ≡ flat_map (λ c. if_some (action_of c)) (map command_of commands.now)) }
{
    let mut all = Vec::new(alloc);
    for command in commands {
        if let Some(action) = &command.action {
            all.push(&action.name)?;
        }
    }
    Ok(all)
}
