// Tables by name in which the first of one name counts.
ghost use Rattle.std.specs.Prelude.{◌≡◌, ◌++◌, is_some, List, ℕ, map, IfOk, OnOk, if◌then◌else◌, Some, None};
ghost use Rattle.std.specs.Option.{option_map};
ghost use Rattle.prism_tree.specs.Syntax.{module_of};
ghost use Rattle.prism_flat.specs.Names.{module_name};
ghost use Rattle.name_rules.specs.Uses.{used};
ghost use Rattle.prism_check.specs.Tables.{body_in, body_under, module_under, new_name, pair_for, name_under, named_module};

use name_rules::{NameMap, add_names};
use prism_tree::{NamePair, PrismExpr, PrismFormula, PrismModule};
use std::alloc::{AllocError, Global};

/// The renaming of a copy.
#[derive(Drop)]
pub(crate) enum Renaming<'a> {
    /// Few pairs, which are gone through.
    Few(&'a [NamePair]),
    /// Many pairs, in a table.
    Many(NameMap<'a, &'a str>),
}

// Up to so many pairs are gone through in less time than a table takes to be made.
const FEW: usize = 8;

impl<'a> Renaming<'a> {
    /// The renaming by these pairs.
    pub(crate) fn of(alloc: Global, pairs: &'a [NamePair]) -> Result<Renaming<'a>, AllocError>
        ensures { IfOk result (λ r. (x : List ℕ) → new_name r x ≡ pair_for pairs.now x) }
    {
        if pairs.len() <= FEW {
            return Ok(Renaming::Few(pairs));
        }
        let table = table_of(alloc, pairs)?;
        Ok(Renaming::Many(table))
    }

    /// The new name of a name, if it has one.
    pub(crate) fn new_name(&self, name: &str) -> Option<&'a str>
        ensures { option_map (λ s. s.now) result ≡ new_name self.now name.now }
    {
        match self {
            Renaming::Few(pairs) => first_new_name(pairs, name),
            Renaming::Many(table) => table.get(name),
        }
    }
}

// The right sides of these pairs by their left sides.
fn table_of<'a>(alloc: Global, pairs: &'a [NamePair]) -> Result<NameMap<'a, &'a str>, AllocError>
    ensures { IfOk result (λ table. (x : List ℕ) → name_under table x ≡ pair_for pairs.now x) }
{
    let mut table = NameMap::new(alloc);
    for pair in pairs {
        table.put_first(pair.old.name.as_str(), pair.new.name.as_str())?;
    }
    Ok(table)
}

// The right side of the first pair that has the name on its left side.
fn first_new_name<'a>(pairs: &'a [NamePair], name: &str) -> Option<&'a str>
    ensures { option_map (λ s. s.now) result ≡ pair_for pairs.now name.now }
{
    for pair in pairs {
        if pair.old.name.as_str() == name {
            return Some(pair.new.name.as_str());
        }
    }
    None
}

/// The modules by their names.
#[derive(Drop)]
pub(crate) struct Modules<'a> {
    first: NameMap<'a, &'a PrismModule>,
}

impl<'a> Modules<'a> {
    /// A table of these modules.
    pub(crate) fn of(alloc: Global, modules: &'a [PrismModule]) -> Result<Modules<'a>, AllocError>
        ensures { IfOk result (λ t. (x : List ℕ) → module_under t x ≡ named_module modules.now x) }
    {
        let mut first = NameMap::new(alloc);
        for entry in modules {
            first.put_first(name_of(entry), entry)?;
        }
        Ok(Modules { first })
    }

    /// The first module of this name.
    pub(crate) fn called(&self, name: &str) -> Option<&'a PrismModule>
        ensures { option_map (λ m. module_of m.now) result ≡ module_under self.now name.now }
    {
        self.first.get(name)
    }
}

/// The name of a module.
pub(crate) fn name_of(m: &PrismModule) -> &str
    ensures { result.now ≡ (module_name (module_of m.now)).name }
{
    match m {
        PrismModule::Plain(m) => m.name.name.as_str(),
        PrismModule::Copied(m) => m.name.name.as_str(),
    }
}

/// The bodies of formulas by their names.
#[derive(Drop)]
pub(crate) struct Formulas<'a> {
    bodies: NameMap<'a, &'a PrismExpr>,
}

impl<'a> Formulas<'a> {
    /// A table of these formulas.
    pub(crate) fn of(
        alloc: Global,
        formulas: &'a [PrismFormula],
    ) -> Result<Formulas<'a>, AllocError>
        ensures { IfOk result (λ t. (x : List ℕ) → body_under t x ≡ body_in formulas.now x) }
    {
        let mut bodies = NameMap::new(alloc);
        for formula in formulas {
            bodies.put_first(formula.name.name.as_str(), &formula.body)?;
        }
        Ok(Formulas { bodies })
    }

    /// Whether this is the name of a formula.
    pub(crate) fn has(&self, name: &str) -> bool
        ensures { result ≡ is_some (body_under self.now name.now) }
    {
        self.bodies.get(name).is_some()
    }

    /// Adds the names in the body of the formula of this name, if there is one. `Err` is want of memory.
    pub(crate) fn add_names(&self, name: &str, list: &mut Vec<&'a str>) -> Result<(), AllocError>
        ensures { OnOk result
            (map (λ s. s.now) list.new.items ≡ map (λ s. s.now) list.old.items ++ used (body_under self.now name.now)) }
    {
        match self.bodies.get(name) {
            Some(body) => add_names(body, list),
            None => Ok(()),
        }
    }
}
