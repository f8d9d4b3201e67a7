// The names that parts of a file declare or use, as lists.

ghost use Rattle.std.specs.Prelude.{◌≡◌, List, [], ◌∷◌, ◌++◌, map, IfOk, OnOk};
ghost use Rattle.std.specs.List.{flat_map};
ghost use Rattle.bridge_io.specs.declared.reason.Named.{Named as Name};
ghost use Rattle.jani_tree.specs.Syntax.{edge_of, file_of};
ghost use Rattle.jani_check.specs.NameFaults.{global_names};
ghost use Rattle.basics.specs.Options.{if_some};
ghost use Rattle.name_rules.specs.Names.{named_by};

use bridge_io::Named;
use jani_tree::{
    JaniAutomaton, JaniConst, JaniDestination, JaniEdge, JaniElement, JaniFile, JaniLocation,
    JaniVar, JaniVector, JaniWrite,
};
use name_rules::{Entry, add_name};
use std::alloc::{AllocError, Global};

/// A part of a file that declares names or uses them: a destination and an edge the names of locations, a vector those of
/// actions, a write that of what is written.
pub(crate) trait Naming {
    ghost names: { Self → List Name };

    /// Adds its names at the end of the list.
    fn add_names<'a>(&'a self, list: &mut Vec<Entry<'a>>) -> Result<(), AllocError>
        ensures { OnOk result (map named_by list.new.items ≡ map named_by list.old.items ++ names self.now) };
}

/// Adds the names of each of these.
pub(crate) fn add_names_of<'a, T: Naming>(
    parts: &'a [T],
    list: &mut Vec<Entry<'a>>,
) -> Result<(), AllocError>
    ensures { OnOk result (map named_by list.new.items ≡ map named_by list.old.items ++ flat_map T.names parts.now) }
{
    for part in parts {
        part.add_names(list)?;
    }
    Ok(())
}

/// The names of each of these.
pub(crate) fn names_of<'a, T: Naming>(
    alloc: Global,
    parts: &'a [T],
) -> Result<Vec<Entry<'a>>, AllocError>
    ensures { IfOk result (λ list. map named_by list.items ≡ flat_map T.names parts.now) }
{
    let mut list = Vec::new(alloc);
    add_names_of(parts, &mut list)?;
    Ok(list)
}

/// The constants and global variables of a file, which share their names.
pub(crate) fn global_names(alloc: Global, file: &JaniFile) -> Result<Vec<Entry>, AllocError>
    ensures { IfOk result (λ list. map named_by list.items ≡ global_names (file_of file.now)) }
{
    let mut list = Vec::new(alloc);
    add_names_of(file.constants.as_slice(), &mut list)?;
    add_names_of(file.variables.as_slice(), &mut list)?;
    Ok(list)
}

/// Adds the actions of edges that have one.
pub(crate) fn add_actions<'a>(
    edges: &'a [JaniEdge],
    list: &mut Vec<Entry<'a>>,
) -> Result<(), AllocError>
    ensures { OnOk result
        (map named_by list.new.items ≡ map named_by list.old.items ++ flat_map (λ e. if_some e.action) (map edge_of edges.now)) }
{
    for edge in edges {
        edge.action.add_names(list)?;
    }
    Ok(())
}

impl Naming for Named {
    ghost use Rattle.std.specs.Prelude.{[], ◌∷◌};

    ghost names = { λ n. n ∷ [] };

    fn add_names<'a>(&'a self, list: &mut Vec<Entry<'a>>) -> Result<(), AllocError> {
        add_name(self, list)
    }
}

impl Naming for Option<Named> {
    ghost use Rattle.basics.specs.Options.{if_some};

    ghost names = { λ n. if_some n };

    fn add_names<'a>(&'a self, list: &mut Vec<Entry<'a>>) -> Result<(), AllocError> {
        match self {
            Some(name) => add_name(name, list),
            None => Ok(()),
        }
    }
}

impl Naming for JaniConst {
    ghost use Rattle.std.specs.Prelude.{[], ◌∷◌};

    ghost names = { λ c. c.name ∷ [] };

    fn add_names<'a>(&'a self, list: &mut Vec<Entry<'a>>) -> Result<(), AllocError> {
        add_name(&self.name, list)
    }
}

impl Naming for JaniVar {
    ghost use Rattle.std.specs.Prelude.{[], ◌∷◌};

    ghost names = { λ x. x.name ∷ [] };

    fn add_names<'a>(&'a self, list: &mut Vec<Entry<'a>>) -> Result<(), AllocError> {
        add_name(&self.name, list)
    }
}

impl Naming for JaniLocation {
    ghost use Rattle.std.specs.Prelude.{[], ◌∷◌};

    ghost names = { λ l. l.name ∷ [] };

    fn add_names<'a>(&'a self, list: &mut Vec<Entry<'a>>) -> Result<(), AllocError> {
        add_name(&self.name, list)
    }
}

impl Naming for JaniElement {
    ghost use Rattle.std.specs.Prelude.{[], ◌∷◌};

    ghost names = { λ e. e.name ∷ [] };

    fn add_names<'a>(&'a self, list: &mut Vec<Entry<'a>>) -> Result<(), AllocError> {
        add_name(&self.name, list)
    }
}

impl Naming for JaniAutomaton {
    ghost use Rattle.std.specs.Prelude.{[], ◌∷◌};

    ghost names = { λ a. a.name ∷ [] };

    fn add_names<'a>(&'a self, list: &mut Vec<Entry<'a>>) -> Result<(), AllocError> {
        add_name(&self.name, list)
    }
}

impl Naming for JaniWrite {
    ghost use Rattle.std.specs.Prelude.{[], ◌∷◌};

    ghost names = { λ w. w.target ∷ [] };

    fn add_names<'a>(&'a self, list: &mut Vec<Entry<'a>>) -> Result<(), AllocError> {
        add_name(&self.target, list)
    }
}

impl Naming for JaniDestination {
    ghost use Rattle.std.specs.Prelude.{[], ◌∷◌};

    ghost names = { λ d. d.location ∷ [] };

    fn add_names<'a>(&'a self, list: &mut Vec<Entry<'a>>) -> Result<(), AllocError> {
        add_name(&self.location, list)
    }
}

impl Naming for JaniEdge {
    ghost use Rattle.jani_tree.specs.Syntax.{edge_of};
    ghost use Rattle.jani_check.specs.NameFaults.{edge_locations};

    ghost names = { λ e. edge_locations (edge_of e) };

    fn add_names<'a>(&'a self, list: &mut Vec<Entry<'a>>) -> Result<(), AllocError> {
        add_name(&self.location, list)?;
        add_names_of(self.destinations.as_slice(), list)
    }
}

impl Naming for JaniVector {
    ghost use Rattle.jani_tree.specs.Syntax.{vector_of};
    ghost use Rattle.jani_check.specs.NameFaults.{vector_actions};

    ghost names = { λ v. vector_actions (vector_of v) };

    fn add_names<'a>(&'a self, list: &mut Vec<Entry<'a>>) -> Result<(), AllocError> {
        add_names_of(self.parts.as_slice(), list)?;
        self.result.add_names(list)
    }
}
