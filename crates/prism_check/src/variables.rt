// The constants and variables of a file with their types, by name.

ghost use Rattle.std.specs.Prelude.{◌≡◌, List, ℕ, [], map, IfOk, OnOk, unwrap_or};
ghost use Rattle.std.specs.Option.{option_map, option_or};
ghost use Rattle.std.specs.List.{find};
ghost use Rattle.prism_tree.specs.Syntax.{file_of, module_of, var_of, const_of};
ghost use Rattle.op_trees.specs.Names.{is_called};
ghost use Rattle.prism_check.specs.Demands.{var_type};
ghost use Rattle.name_rules.specs.Names.{under};
ghost use Rattle.prism_check.specs.Tables.{module_under, named_module, new_name, pair_for};
ghost use Rattle.prism_check.specs.TypeFaults.{variable_called};
ghost use Rattle.prism_check.specs.Typing.{IsDeclared, module_variables_by, numbered_by, owned, owned_in, variables_by};

use crate::tables::{Modules, Renaming};
use crate::values::vars_in;
use bridge_io::together;
use name_rules::NameMap;
use op_trees::Ty;
use prism_tree::{PrismConst, PrismFile, PrismModule, PrismVar};
use std::alloc::{AllocError, Global};

/// A variable: the number of its module, if it is not a global one, and its type.
#[derive(Clone, Copy)]
pub(crate) struct Owned {
    pub(crate) owner: Option<usize>,
    pub(crate) ty: Ty,
}

/// The constants and variables of a file.
#[derive(Drop)]
pub(crate) struct Declared<'a> {
    pub(crate) constants: NameMap<'a, Ty>,
    pub(crate) variables: NameMap<'a, Owned>,
}

/// Those of this file; the variables of a copy have their new names.
pub(crate) fn declarations<'a>(
    alloc: Global,
    file: &'a PrismFile,
    modules: &Modules<'a>,
) -> Result<Declared<'a>, AllocError>
    requires { (x : List ℕ) → module_under modules.now x ≡ named_module file.now.modules x }
    ensures { IfOk result (λ d. IsDeclared d (file_of file.now)) }
{
    let constants = constant_types(alloc, file.constants.as_slice());
    let (constants, variables) = together(constants, owned_variables(alloc, file, modules))?;
    Ok(Declared {
        constants,
        variables,
    })
}

// The variables of this file, those of a copy under their new names.
fn owned_variables<'a>(
    alloc: Global,
    file: &'a PrismFile,
    modules: &Modules<'a>,
) -> Result<NameMap<'a, Owned>, AllocError>
    requires { (x : List ℕ) → module_under modules.now x ≡ named_module file.now.modules x }
    ensures { IfOk result
        (λ table. (x : List ℕ) → under table x ≡ option_map owned (variable_called (file_of file.now) x)) }
{
    let mut variables = NameMap::new(alloc);
    add_unchanged(alloc, file.globals.as_slice(), None, &mut variables)?;
    add_all(alloc, file.modules.as_slice(), modules, &mut variables)?;
    Ok(variables)
}

// The types of these constants.
fn constant_types(alloc: Global, constants: &[PrismConst]) -> Result<NameMap<Ty>, AllocError>
    ensures { IfOk result
        (λ table. (x : List ℕ) →
        under table x ≡ option_map (λ c. c.ty) (find (λ c. is_called x c.name) (map const_of constants.now))) }
{
    let mut table = NameMap::new(alloc);
    for constant in constants {
        table.put_first(constant.name.name.as_str(), constant.ty)?;
    }
    Ok(table)
}

// The type of a variable.
fn type_of(var: &PrismVar) -> Ty
    ensures { result ≡ var_type (var_of var.now) }
{
    match &var.range {
        None => Ty::Bool,
        Some(_) => Ty::Int,
    }
}

// The new name of a name, or the name itself where it has none.
fn read_as<'a>(renaming: &Renaming<'a>, name: &'a str) -> &'a str
    ensures { result.now ≡ unwrap_or (new_name renaming.now name.now) name.now }
{
    match renaming.new_name(name) {
        Some(new) => new,
        None => name,
    }
}

// Adds these variables under their new names.
fn add_variables<'a>(
    vars: &'a [PrismVar],
    renaming: &Renaming<'a>,
    owner: Option<usize>,
    table: &mut NameMap<'a, Owned>,
) -> Result<(), AllocError>
    ensures { OnOk result
        ((x : List ℕ) → under table.new x
        ≡ option_or (under table.old x) (owned_in (variables_by (new_name renaming.now) owner (map var_of vars.now)) x)) }
{
    for var in vars {
        let name = read_as(renaming, var.name.name.as_str());
        let ty = type_of(var);
        table.put_first(name, Owned { owner, ty })?;
    }
    Ok(())
}

// Adds these variables under their own names.
fn add_unchanged<'a>(
    alloc: Global,
    vars: &'a [PrismVar],
    owner: Option<usize>,
    table: &mut NameMap<'a, Owned>,
) -> Result<(), AllocError>
    ensures { OnOk result
        ((x : List ℕ) → under table.new x
        ≡ option_or (under table.old x) (owned_in (variables_by (pair_for []) owner (map var_of vars.now)) x)) }
{
    let unchanged = Renaming::of(alloc, &[])?;
    let added = add_variables(vars, &unchanged, owner, table);
    drop(unchanged);
    added
}

// Adds the variables of all modules.
fn add_all<'a>(
    alloc: Global,
    all: &'a [PrismModule],
    modules: &Modules<'a>,
    table: &mut NameMap<'a, Owned>,
) -> Result<(), AllocError>
    ensures { OnOk result
        ((x : List ℕ) → under table.new x
        ≡ option_or (under table.old x) (owned_in (numbered_by (module_under modules.now) 0 (map module_of all.now)) x)) }
{
    for (number, entry) in all.iter().enumerate() {
        add_module(alloc, entry, number, modules, table)?;
    }
    Ok(())
}

// Adds the variables of a module.
fn add_module<'a>(
    alloc: Global,
    entry: &'a PrismModule,
    number: usize,
    modules: &Modules<'a>,
    table: &mut NameMap<'a, Owned>,
) -> Result<(), AllocError>
    ensures { OnOk result
        ((x : List ℕ) → under table.new x
        ≡ option_or (under table.old x) (owned_in (module_variables_by (module_under modules.now) number (module_of entry.now)) x)) }
{
    match entry {
        PrismModule::Plain(m) => add_unchanged(alloc, m.vars.as_slice(), Some(number), table),
        PrismModule::Copied(m) => {
            let renaming = Renaming::of(alloc, m.pairs.as_slice())?;
            let from = modules.called(m.from.name.as_str());
            let added = add_variables(vars_in(from), &renaming, Some(number), table);
            drop(renaming);
            added
        }
    }
}
