// What a file declares: its constants, formulas and variables, which share their names.

ghost use Rattle.std.specs.Prelude.{◌≡◌, List, ℕ, ◌++◌, map, IfOk, OnOk};
ghost use Rattle.std.specs.List.{flat_map};
ghost use Rattle.std.specs.Option.{option_map};
ghost use Rattle.prism_tree.specs.Syntax.{command_of, file_of, module_of, var_of};
ghost use Rattle.prism_check.specs.NameFaults.{values};
ghost use Rattle.prism_check.specs.Tables.{commands_in, module_under, module_vars_by, named_module, new_name, renamed_by, vars_in};
ghost use Rattle.name_rules.specs.Names.{named_by};

use crate::naming::add_names_of;
use crate::tables::{Modules, Renaming};
use name_rules::Entry;
use prism_tree::{PrismCommand, PrismFile, PrismModule, PrismVar};
use std::alloc::{AllocError, Global};

/// The constants, formulas and variables, those of copies too.
pub(crate) fn values<'a>(
    alloc: Global,
    file: &'a PrismFile,
    modules: &Modules<'a>,
) -> Result<Vec<Entry<'a>>, AllocError>
    requires { (x : List ℕ) → module_under modules.now x ≡ named_module file.now.modules x }
    ensures { IfOk result (λ list. map named_by list.items ≡ values (file_of file.now)) }
{
    let mut list = Vec::new(alloc);
    add_names_of(file.constants.as_slice(), &mut list)?;
    add_names_of(file.formulas.as_slice(), &mut list)?;
    add_names_of(file.globals.as_slice(), &mut list)?;
    add_all_vars(alloc, file.modules.as_slice(), modules, &mut list)?;
    Ok(list)
}

fn add_all_vars<'a>(
    alloc: Global,
    all: &'a [PrismModule],
    modules: &Modules<'a>,
    list: &mut Vec<Entry<'a>>,
) -> Result<(), AllocError>
    ensures { OnOk result
        (map named_by list.new.items
        ≡ map named_by list.old.items ++ flat_map (module_vars_by (module_under modules.now)) (map module_of all.now)) }
{
    for entry in all {
        add_module_vars(alloc, entry, modules, list)?;
    }
    Ok(())
}

fn add_module_vars<'a>(
    alloc: Global,
    entry: &'a PrismModule,
    modules: &Modules<'a>,
    list: &mut Vec<Entry<'a>>,
) -> Result<(), AllocError>
    ensures { OnOk result
        (map named_by list.new.items
        ≡ map named_by list.old.items ++ module_vars_by (module_under modules.now) (module_of entry.now)) }
{
    match entry {
        PrismModule::Plain(m) => add_names_of(m.vars.as_slice(), list),
        PrismModule::Copied(m) => {
            let renaming = Renaming::of(alloc, m.pairs.as_slice())?;
            let from = modules.called(m.from.name.as_str());
            let added = add_renamed(vars_in(from), &renaming, m.name.at, list);
            drop(renaming);
            added
        }
    }
}

/// The variables that a copy of this module has.
pub(crate) fn vars_in<'a>(from: Option<&'a PrismModule>) -> &'a [PrismVar]
    ensures { map var_of result.now ≡ vars_in (option_map (λ m. module_of m.now) from.entry) }
{
    match from {
        Some(PrismModule::Plain(m)) => m.vars.as_slice(),
        _ => &[],
    }
}

/// The commands that a copy of this module has.
pub(crate) fn commands_in<'a>(from: Option<&'a PrismModule>) -> &'a [PrismCommand]
    ensures { map command_of result.now ≡ commands_in (option_map (λ m. module_of m.now) from.entry) }
{
    match from {
        Some(PrismModule::Plain(m)) => m.commands.as_slice(),
        _ => &[],
    }
}

// Adds the new names of the variables that have one.
fn add_renamed<'a>(
    vars: &[PrismVar],
    renaming: &Renaming<'a>,
    at: usize,
    list: &mut Vec<Entry<'a>>,
) -> Result<(), AllocError>
    ensures { OnOk result
        (map named_by list.new.items ≡ map named_by list.old.items ++ renamed_by (new_name renaming.now) at (map var_of vars.now)) }
{
    for var in vars {
        if let Some(name) = renaming.new_name(var.name.name.as_str()) {
            list.push(Entry { name, at })?;
        }
    }
    Ok(())
}
