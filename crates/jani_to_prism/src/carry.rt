// How states and labels go between a file and its translation.

ghost use Rattle.std.specs.Prelude.{◌≡◌, ◌≤◌, length, map, IfOk};
ghost use Rattle.std.specs.List.{AllByRecursion as Each};
ghost use Rattle.jani_tree.specs.Syntax.{file_of};
ghost use Rattle.jani_loops.specs.Elements.{element_view};
ghost use Rattle.prism_targets.specs.Names.{entries};
ghost use Rattle.prism_targets.specs.Serving.{target_in};
ghost use Rattle.prism_targets.specs.Targets.{targets};
ghost use Rattle.prism_modules.specs.Code.{file_in, names_in, IsReady};
ghost use Rattle.prism_modules.specs.Gathered.{AreGathered};
ghost use Rattle.jani_to_prism.specs.MapParts.{IsMapBy};
ghost use Rattle.jani_to_prism.specs.Maps.{IsMapToPrism};

use crate::label_pairs::label_pairs;
use crate::map_columns::map_columns;
use crate::named_targets::named_targets;
use crate::naming::file_names;
use bridge_io::{List, together};
use carry_maps::CarryMap;
use jani_check::CheckedJani;
use jani_loops::ElementAutomaton;
use jani_tree::JaniFile;
use name_table::Entry;
use prism_modules::{FileParts, Names, file_parts};
use prism_targets::Target;
use std::alloc::{AllocError, Global};

/// How the states and labels of a file's translation go with those of the file: for each element how many locations it has, for
/// each column of the PRISM file the one of the JANI file that it stands for, and each action, in the order of the entries, with the
/// old name of what it is made for. The actions have at most 255 bytes. Nothing is translated for it, and no loop is made. An `Err` is want of memory.
pub fn carry_map(alloc: Global, checked: &CheckedJani) -> Result<CarryMap, AllocError>
    ensures map { IfOk result (IsMapToPrism (file_of checked.now)) }
    ensures short { IfOk result (λ m. Each (λ p. length p.prism ≤ 255) m.labels) }
{
    let file = checked.file();
    let parts = file_parts(alloc, file)?;
    map_for(alloc, file, &parts)
}

/// That of a file, where these are its parts.
fn map_for(alloc: Global, file: &JaniFile, parts: &FileParts) -> Result<CarryMap, AllocError>
    requires { AreGathered parts.now (file_of file.now) }
    ensures map { IfOk result (IsMapToPrism (file_of file.now)) }
    ensures short { IfOk result (λ m. Each (λ p. length p.prism ≤ 255) m.labels) }
{
    let named = named_targets(alloc, file, parts)?;
    map_of(
        alloc,
        file,
        parts,
        named.serving.targets.as_slice(),
        named.table.as_slice(),
    )
}

/// The same, where these are its targets and its entries.
fn map_of(
    alloc: Global,
    file: &JaniFile,
    parts: &FileParts,
    made: &[Target],
    all: &[Entry],
) -> Result<CarryMap, AllocError>
    requires parts { AreGathered parts.now (file_of file.now) }
    requires targets { map (target_in (file_of file.now)) made.now ≡ targets (file_of file.now) }
    requires entries { all.now ≡ entries (file_of file.now) }
    ensures { IfOk result (IsMapToPrism (file_of file.now)) }
{
    let names = file_names(alloc, file, parts, all)?;
    map_by(alloc, &names, parts, made)
}

/// The same by what its names become.
fn map_by(
    alloc: Global,
    names: &Names,
    parts: &FileParts,
    made: &[Target],
) -> Result<CarryMap, AllocError>
    requires names { IsReady names.now }
    requires parts { AreGathered parts.now (file_in names.now) }
    requires targets { map (target_in (file_in names.now)) made.now ≡ targets (file_in names.now) }
    ensures { IfOk result (IsMapBy (names_in names.now) (file_in names.now)) }
{
    let columns = map_columns(alloc, names, parts);
    let labels = label_pairs(alloc, names.entries.actions, made);
    let locations = location_counts(alloc, parts.automata.as_slice());
    let (locations, (columns, labels)) = together(locations, together(columns, labels))?;
    Ok(CarryMap {
        locations,
        columns,
        labels,
    })
}

/// How many locations each element has.
fn location_counts(alloc: Global, automata: &[ElementAutomaton]) -> Result<List<usize>, AllocError>
    ensures { IfOk result (λ ns. ns ≡ map (λ a. length a.locations) (map element_view automata.now)) }
{
    let mut all = List::new(alloc);
    for i in 0..automata.len() {
        let count = automata[i].locations().len();
        all.push(count)?;
    }
    Ok(all)
}
