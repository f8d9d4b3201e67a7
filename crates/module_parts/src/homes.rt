// Where the variables of a file belong: which stay global, and which belong to which module.

ghost use Rattle.std.specs.Prelude.{◌≡◌, ◌++◌, ℕ, map, is_none, IfOk, OnOk};
ghost use Rattle.std.specs.List.{filter};
ghost use Rattle.jani_meaning.specs.Elements.{is_owner};
ghost use Rattle.name_table.specs.JaniParts.{owned_of};
ghost use Rattle.prism_tree.specs.Syntax as prism;
ghost use Rattle.process_core.specs.Instance.{numbered, only_if};
ghost use Rattle.edge_tables.specs.Elements.{lasting_variables, shared, at_home, is_at};
ghost use Rattle.edge_tables.specs.Parts.{variable};
ghost use Rattle.gathering.specs.Lists.{list_for};
ghost use Rattle.module_parts.specs.Code.{file_in, names_in, IsReady, lasting_of, lasting_with};
ghost use Rattle.module_parts.specs.Homes.{AreWriters, home_by_table, is_adopted};

use crate::entries::Names;
use crate::parts::{LastingVar, variable};
use crate::writers::WriterTable;
use bridge_io::List;
use gathering::NumberLists;
use name_table::OwnedVar;
use prism_tree::PrismVar;
use std::alloc::{AllocError, Global};

/// Variables that are not transient, with their numbers.
pub fn lasting_variables<'a>(
    alloc: Global,
    vars: &[OwnedVar<'a>],
) -> Result<Vec<LastingVar<'a>>, AllocError>
    ensures { IfOk result (λ xs. map lasting_of xs.items ≡ numbered lasting_with 0 (map owned_of vars.now)) }
{
    let mut all = Vec::new(alloc);
    for i in 0..vars.len() {
        all.push(LastingVar {
            number: i,
            owned: vars[i],
        })?;
    }
    Ok(all)
}

/// The element whose module has a variable: its owner, or by its writers; none for a variable that stays global.
fn home(writers: &WriterTable, x: &LastingVar) -> Option<usize>
    ensures { result ≡ home_by_table writers.now (lasting_of x.now) }
{
    match x.owned.owner {
        Some(k) => Some(k),
        None => writers.get(x.number).home(),
    }
}

/// The variables that stay global. `Err` is want of memory.
pub fn shared<'a>(
    alloc: Global,
    names: &Names,
    writers: &WriterTable,
    vars: &[LastingVar<'a>],
) -> Result<Vec<LastingVar<'a>>, AllocError>
    requires writers { AreWriters writers.now (file_in names.now) }
    requires vars { map lasting_of vars.now ≡ lasting_variables (file_in names.now) }
    ensures { IfOk result (λ all. map lasting_of all.items ≡ shared (file_in names.now)) }
{
    let mut all = Vec::new(alloc);
    for x in vars {
        add_shared(&mut all, writers, x)?;
    }
    Ok(all)
}

/// Adds a variable, if it stays global.
fn add_shared<'a>(
    all: &mut Vec<LastingVar<'a>>,
    writers: &WriterTable,
    x: &LastingVar<'a>,
) -> Result<(), AllocError>
    ensures { OnOk result (all.new.items ≡ all.old.items ++ only_if (is_none (home_by_table writers.now (lasting_of x.now))) x.now) }
{
    match home(writers, x) {
        Some(_) => Ok(()),
        None => {
            all.push(*x)?;
            Ok(())
        }
    }
}

/// The variables that stay global, as the file has them.
pub fn globals(
    alloc: Global,
    names: &Names,
    writers: &WriterTable,
    vars: &[LastingVar],
) -> Result<List<PrismVar>, AllocError>
    requires names { IsReady names.now }
    requires writers { AreWriters writers.now (file_in names.now) }
    requires vars { map lasting_of vars.now ≡ lasting_variables (file_in names.now) }
    ensures { IfOk result (λ all. map prism.var_of all ≡ map (variable (file_in names.now) (names_in names.now)) (shared (file_in names.now))) }
{
    let shared = shared(alloc, names, writers, vars)?;
    variables(alloc, names, shared.as_slice())
}

/// Variables that are not transient, as the file has them.
fn variables(
    alloc: Global,
    names: &Names,
    vars: &[LastingVar],
) -> Result<List<PrismVar>, AllocError>
    requires { IsReady names.now }
    ensures { IfOk result (λ all. map prism.var_of all ≡ map (variable (file_in names.now) (names_in names.now)) (map lasting_of vars.now)) }
{
    let mut all = List::new(alloc);
    for x in vars {
        all.push(variable(alloc, names, x)?)?;
    }
    Ok(all)
}

/// The variables of each module: the element's own, and then the global ones that are at home there.
pub fn at_home<'a>(
    alloc: Global,
    names: &Names,
    writers: &WriterTable,
    vars: &[LastingVar<'a>],
) -> Result<NumberLists<LastingVar<'a>>, AllocError>
    requires writers { AreWriters writers.now (file_in names.now) }
    requires vars { map lasting_of vars.now ≡ lasting_variables (file_in names.now) }
    ensures { IfOk result (λ b. (k : ℕ) → map lasting_of (list_for b k) ≡ at_home (file_in names.now) k) }
{
    let mut all = NumberLists::new(alloc);
    add_own(alloc, &mut all, vars)?;
    add_adopted(alloc, &mut all, writers, vars)?;
    Ok(all)
}

/// Adds each element's own variables.
fn add_own<'a>(
    alloc: Global,
    all: &mut NumberLists<LastingVar<'a>>,
    vars: &[LastingVar<'a>],
) -> Result<(), AllocError>
    ensures { OnOk result ((k : ℕ) → map lasting_of (list_for all.new k) ≡
        map lasting_of (list_for all.old k) ++ filter (λ x. is_owner k x.owned.owner) (map lasting_of vars.now)) }
{
    for x in vars {
        add_to(alloc, all, x.owned.owner, x)?;
    }
    Ok(())
}

/// Adds a variable to an element, if there is one.
fn add_to<'a>(
    alloc: Global,
    all: &mut NumberLists<LastingVar<'a>>,
    element: Option<usize>,
    x: &LastingVar<'a>,
) -> Result<(), AllocError>
    ensures { OnOk result ((k : ℕ) → list_for all.new k ≡ list_for all.old k ++ only_if (is_at k element) x.now) }
{
    match element {
        Some(k) => all.add(alloc, k, *x),
        None => Ok(()),
    }
}

/// Adds the global variables to the elements that they are at home with.
fn add_adopted<'a>(
    alloc: Global,
    all: &mut NumberLists<LastingVar<'a>>,
    writers: &WriterTable,
    vars: &[LastingVar<'a>],
) -> Result<(), AllocError>
    ensures { OnOk result ((k : ℕ) → map lasting_of (list_for all.new k) ≡
        map lasting_of (list_for all.old k) ++ filter (is_adopted writers.now k) (map lasting_of vars.now)) }
{
    for x in vars {
        add_to(alloc, all, adopter(writers, x), x)?;
    }
    Ok(())
}

/// The element whose module has a global variable, if one has it.
fn adopter(writers: &WriterTable, x: &LastingVar) -> Option<usize>
    ensures { (k : ℕ) → is_at k result ≡ is_adopted writers.now k (lasting_of x.now) }
{
    match x.owned.owner {
        Some(_) => None,
        None => home(writers, x),
    }
}
