// How a PRISM file goes with the JANI file that it is translated to, as data: made of what that has names for, without the file.

ghost use Rattle.std.specs.Prelude.{◌≡◌, ◌+◌, length, map, replicate, IfOk, if◌then◌else◌};
ghost use Rattle.choice_laws.specs.Columns.{counting};
ghost use Rattle.carry_maps.specs.declared.map.Column.TheVariants.{Variable};
ghost use Rattle.prism_tree.specs.Syntax.{file_of};
ghost use Rattle.prism_names.specs.Flat.{flat};
ghost use Rattle.name_table.specs.Asks.{actions};
ghost use Rattle.jani_automata.specs.Code.{names_in};
ghost use Rattle.jani_automata.specs.Translated.{translated};
ghost use Rattle.prism_to_jani.specs.Maps.{pair_by, IsMapToJani};
ghost use Rattle.prism_to_jani.specs.Statements.{AreVariables, AreActions, AreEntries, AreNames};
ghost use Rattle.jani_tree.specs.Syntax.{element_names};

use crate::translation::{file_actions, file_names, file_table, file_variables};
use bridge_io::{List, Text};
use carry_maps::{CarryMap, Column, LabelPair};
use jani_automata::{Names, has_monitor, new_action};
use name_table::Entry;
use prism_check::{CheckedPrism, FlatPrism, flatten};
use prism_tree::{PrismFile, PrismVar};
use std::alloc::{AllocError, Global};

/// How the states and labels of a PRISM file without fault go with those of the JANI file that it is translated to: what
/// `to_jani` goes by, as data. `Err` is want of memory.
pub fn carry_map(alloc: Global, checked: &CheckedPrism) -> Result<CarryMap, AllocError>
    ensures { IfOk result (IsMapToJani (flat checked.now.file)) }
{
    let written = flatten(alloc, checked)?;
    flat_carry_map(alloc, &written)
}

/// The same of a file with its formulas and its copies of modules written out. `Err` is want of memory.
pub fn flat_carry_map(alloc: Global, written: &FlatPrism) -> Result<CarryMap, AllocError>
    ensures { IfOk result (IsMapToJani written.now) }
{
    file_map(alloc, written.file())
}

/// The map of a file whose formulas and copies are written out.
fn file_map(alloc: Global, file: &PrismFile) -> Result<CarryMap, AllocError>
    ensures { IfOk result (IsMapToJani (file_of file.now)) }
{
    let vars = file_variables(alloc, file)?;
    let acts = file_actions(alloc, file)?;
    let table = file_table(alloc, file, &vars, &acts)?;
    map_with(alloc, file, &vars, &acts, table.as_slice())
}

/// The map of a file, where these are its entries.
fn map_with(
    alloc: Global,
    file: &PrismFile,
    vars: &Vec<&PrismVar>,
    acts: &Vec<&Text>,
    entries: &[Entry],
) -> Result<CarryMap, AllocError>
    requires vars { AreVariables vars.now.items file.now }
    requires acts { AreActions acts.now.items file.now }
    requires entries { AreEntries entries.now file.now }
    ensures { IfOk result (IsMapToJani (file_of file.now)) }
{
    let names = file_names(alloc, file, vars, acts, entries)?;
    map_by(alloc, file, vars, acts, &names)
}

/// The map of a file, where these are its variables, its actions and its new names.
fn map_by(
    alloc: Global,
    file: &PrismFile,
    vars: &Vec<&PrismVar>,
    acts: &Vec<&Text>,
    names: &Names,
) -> Result<CarryMap, AllocError>
    requires vars { AreVariables vars.now.items file.now }
    requires acts { AreActions acts.now.items file.now }
    requires names { AreNames names.now file.now }
    ensures { IfOk result (IsMapToJani (file_of file.now)) }
{
    let locations = locations(alloc, file, acts.as_slice())?;
    let columns = columns(alloc, vars.as_slice())?;
    let labels = label_pairs(alloc, acts.as_slice(), names)?;
    Ok(CarryMap {
        locations,
        columns,
        labels,
    })
}

/// The number of locations of each element: one of each module, and of the monitor, if there is one.
fn locations(alloc: Global, file: &PrismFile, acts: &[&Text]) -> Result<List<usize>, AllocError>
    requires { map (λ x. x.now) acts.now ≡ actions (file_of file.now) }
    ensures { IfOk result (λ r. r ≡ map (λ a. 1) (element_names (translated (file_of file.now)))) }
{
    let watched = has_monitor(alloc, file, acts)?;
    let all = one_each(alloc, file.modules.len(), watched)?;
    Ok(all)
}

/// One for each of so many modules, and one more where there is a monitor.
fn one_each(alloc: Global, modules: usize, watched: bool) -> Result<List<usize>, AllocError>
    ensures { IfOk result (λ r. r ≡ replicate (modules + (if watched then 1 else 0)) 1) }
{
    let mut all = List::from_vec(vec![in alloc; 1; modules]?);
    if watched {
        all.push(1)?;
    }
    Ok(all)
}

/// A column for each of these variables: the one of its number.
fn columns(alloc: Global, vars: &[&PrismVar]) -> Result<List<Column>, AllocError>
    ensures { IfOk result (λ r. r ≡ map Variable (counting 0 (length vars.now))) }
{
    let mut all = List::new(alloc);
    for i in 0..vars.len() {
        all.push(Column::Variable(i))?;
    }
    Ok(all)
}

/// Each action with its new name.
fn label_pairs(alloc: Global, acts: &[&Text], names: &Names) -> Result<List<LabelPair>, AllocError>
    ensures { IfOk result (λ r. r ≡ map (pair_by (names_in names.now).action) (map (λ x. x.now) acts.now)) }
{
    let mut all = List::new(alloc);
    for a in acts {
        all.push(label_pair(alloc, a, names)?)?;
    }
    Ok(all)
}

/// An action with its new name.
fn label_pair(alloc: Global, a: &Text, names: &Names) -> Result<LabelPair, AllocError>
    ensures { IfOk result (λ r. r ≡ pair_by (names_in names.now).action a.now) }
{
    let prism = Text::copy_of(alloc, a.as_str())?;
    let jani = new_action(alloc, a, names)?;
    Ok(LabelPair {
        prism,
        jani: Some(jani.name),
    })
}
