// The names that parts of a file declare, as lists.

ghost use Rattle.std.specs.Prelude.{◌≡◌, List, [], ◌∷◌, ◌++◌, map, OnOk};
ghost use Rattle.std.specs.List.{flat_map};
ghost use Rattle.bridge_io.specs.declared.reason.Named.{Named as Name};
ghost use Rattle.name_rules.specs.Names.{named_by};

use name_rules::{Entry, add_name};
use prism_tree::{
    NamePair, PrismConst, PrismFormula, PrismLabel, PrismModule, PrismRewards, PrismVar,
};
use std::alloc::AllocError;

/// A part of a file that declares a name or none.
pub(crate) trait Naming {
    ghost names: { Self → List Name };

    /// Adds its names at the end of the list.
    fn add_names<'a>(&'a self, list: &mut Vec<Entry<'a>>) -> Result<(), AllocError>
        ensures { OnOk result (map named_by list.new.items ≡ map named_by list.old.items ++ names self.now) };
}

/// Adds the names of each of these.
pub(crate) fn add_names_of<'a, T: Naming>(
    parts: &'a [T],
    list: &mut Vec<Entry<'a>>,
) -> Result<(), AllocError>
    ensures { OnOk result (map named_by list.new.items ≡ map named_by list.old.items ++ flat_map T.names parts.now) }
{
    for part in parts {
        part.add_names(list)?;
    }
    Ok(())
}

impl Naming for PrismConst {
    ghost use Rattle.std.specs.Prelude.{[], ◌∷◌};

    ghost names = { λ c. c.name ∷ [] };

    fn add_names<'a>(&'a self, list: &mut Vec<Entry<'a>>) -> Result<(), AllocError> {
        add_name(&self.name, list)
    }
}

impl Naming for PrismFormula {
    ghost use Rattle.std.specs.Prelude.{[], ◌∷◌};

    ghost names = { λ f. f.name ∷ [] };

    fn add_names<'a>(&'a self, list: &mut Vec<Entry<'a>>) -> Result<(), AllocError> {
        add_name(&self.name, list)
    }
}

impl Naming for PrismVar {
    ghost use Rattle.std.specs.Prelude.{[], ◌∷◌};

    ghost names = { λ x. x.name ∷ [] };

    fn add_names<'a>(&'a self, list: &mut Vec<Entry<'a>>) -> Result<(), AllocError> {
        add_name(&self.name, list)
    }
}

impl Naming for PrismLabel {
    ghost use Rattle.std.specs.Prelude.{[], ◌∷◌};

    ghost names = { λ l. l.name ∷ [] };

    fn add_names<'a>(&'a self, list: &mut Vec<Entry<'a>>) -> Result<(), AllocError> {
        add_name(&self.name, list)
    }
}

impl Naming for NamePair {
    ghost use Rattle.std.specs.Prelude.{[], ◌∷◌};

    ghost names = { λ p. p.old ∷ [] };

    fn add_names<'a>(&'a self, list: &mut Vec<Entry<'a>>) -> Result<(), AllocError> {
        add_name(&self.old, list)
    }
}

impl Naming for PrismModule {
    ghost use Rattle.std.specs.Prelude.{[], ◌∷◌};
    ghost use Rattle.prism_tree.specs.Syntax.{module_of};
    ghost use Rattle.prism_flat.specs.Names.{module_name};

    ghost names = { λ m. module_name (module_of m) ∷ [] };

    fn add_names<'a>(&'a self, list: &mut Vec<Entry<'a>>) -> Result<(), AllocError> {
        match self {
            PrismModule::Plain(m) => add_name(&m.name, list),
            PrismModule::Copied(m) => add_name(&m.name, list),
        }
    }
}

impl Naming for PrismRewards {
    ghost use Rattle.basics.specs.Options.{if_some};

    ghost names = { λ r. if_some r.name };

    fn add_names<'a>(&'a self, list: &mut Vec<Entry<'a>>) -> Result<(), AllocError> {
        match &self.name {
            Some(name) => add_name(name, list),
            None => Ok(()),
        }
    }
}
