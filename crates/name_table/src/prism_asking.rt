// The table of a translation to PRISM: the names of a JANI file, asked for one after another.

ghost use Rattle.std.specs.Prelude.{◌≡◌, map, IfOk, OnOk};
ghost use Rattle.jani_tree.specs.Syntax.{file_of};
ghost use Rattle.jani_loops.specs.Elements.{element_view};
ghost use Rattle.jani_meaning.specs.Elements.{elements, lasting, labels, structures};
ghost use Rattle.name_table.specs.declared.class.Target.TheVariants.{Prism};
ghost use Rattle.name_table.specs.Gathered.{told};
ghost use Rattle.name_table.specs.JaniParts.{owned_of};
ghost use Rattle.name_table.specs.PrismAsks.{asks, entries, location_ask};

use crate::ask::{HasName, ask_each};
use crate::class::{NameClass, Target};
use crate::jani_parts::{OwnedVar, element_automata, labels, lasting, structures};
use crate::table::NameTable;
use jani_check::CheckedJani;
use jani_loops::ElementAutomaton;
use jani_tree::{JaniConst, JaniElement, JaniFile};
use std::alloc::{AllocError, Global};

/// The table of the entries of a translation to PRISM, by this project's own rule: the names of constants, of variables that
/// are not transient in the order of columns, of a location variable for each element, of elements, of labels and of reward
/// structures. `Err` is want of memory, alone.
pub fn prism_names(alloc: Global, checked: &CheckedJani) -> Result<NameTable, AllocError>
    ensures { IfOk result (λ t. (t.target ≡ Prism) × (t.entries ≡ entries (file_of checked.now))) }
{
    let file = checked.file();
    let automata = element_automata(alloc, file)?;
    table_by(alloc, file, automata.as_slice())
}

/// The table of a file, where these are its elements.
fn table_by(
    alloc: Global,
    file: &JaniFile,
    automata: &[ElementAutomaton],
) -> Result<NameTable, AllocError>
    requires { map element_view automata.now ≡ elements (file_of file.now) }
    ensures { IfOk result (λ t. (t.target ≡ Prism) × (t.entries ≡ entries (file_of file.now))) }
{
    let values = lasting(alloc, file, automata)?;
    let marks = labels(alloc, file, automata)?;
    let rewards = structures(alloc, file, automata)?;
    parts_names(
        alloc,
        file,
        values.as_slice(),
        marks.as_slice(),
        rewards.as_slice(),
    )
}

/// The table of `prism_names` for a file of which these are the variables that are not transient, the labels and the reward
/// structures. `Err` is want of memory, alone.
pub fn parts_names(
    alloc: Global,
    file: &JaniFile,
    values: &[OwnedVar],
    marks: &[OwnedVar],
    rewards: &[OwnedVar],
) -> Result<NameTable, AllocError>
    requires values { map owned_of values.now ≡ lasting (file_of file.now) }
    requires marks { map owned_of marks.now ≡ labels (file_of file.now) }
    requires rewards { map owned_of rewards.now ≡ structures (file_of file.now) }
    ensures { IfOk result (λ t. (t.target ≡ Prism) × (t.entries ≡ entries (file_of file.now))) }
{
    let mut table = NameTable::new(alloc, Target::Prism);
    ask_parts(&mut table, file, values, marks, rewards)?;
    Ok(table)
}

/// Asks for the names of all that the file declares.
fn ask_parts(
    table: &mut NameTable,
    file: &JaniFile,
    values: &[OwnedVar],
    marks: &[OwnedVar],
    rewards: &[OwnedVar],
) -> Result<(), AllocError>
    requires values { map owned_of values.now ≡ lasting (file_of file.now) }
    requires marks { map owned_of marks.now ≡ labels (file_of file.now) }
    requires rewards { map owned_of rewards.now ≡ structures (file_of file.now) }
    ensures { OnOk result (table.new ≡ told table.old (asks (file_of file.now))) }
{
    ask_each(table, NameClass::Constant, file.constants.as_slice())?;
    ask_each(table, NameClass::Variable, values)?;
    ask_locations(table, file.elements.as_slice())?;
    ask_each(table, NameClass::Module, file.elements.as_slice())?;
    ask_each(table, NameClass::Label, marks)?;
    ask_each(table, NameClass::Reward, rewards)?;
    Ok(())
}

/// Asks for a location variable for each element.
fn ask_locations(table: &mut NameTable, elements: &[JaniElement]) -> Result<(), AllocError>
    ensures { OnOk result (table.new ≡ told table.old (map location_ask (map (λ e. e.name) elements.now))) }
{
    for _e in elements {
        table.keep_or_make(NameClass::Location, None)?;
    }
    Ok(())
}

impl HasName for JaniConst {
    ghost use Rattle.std.specs.Prelude.{Some};
    ghost use Rattle.jani_tree.specs.Syntax.{const_of};

    ghost called = { λ c. Some (const_of c).name.name };

    fn name(&self) -> Option<&str> {
        Some(self.name.name.as_str())
    }
}

impl<'a> HasName for OwnedVar<'a> {
    ghost use Rattle.std.specs.Prelude.{Some};
    ghost use Rattle.name_table.specs.JaniParts.{owned_of};

    ghost called = { λ x. Some (owned_of x).var.name.name };

    fn name(&self) -> Option<&str> {
        Some(self.var.name.name.as_str())
    }
}

impl HasName for JaniElement {
    ghost use Rattle.std.specs.Prelude.{Some};

    ghost called = { λ e. Some e.name.name };

    fn name(&self) -> Option<&str> {
        Some(self.name.name.as_str())
    }
}
