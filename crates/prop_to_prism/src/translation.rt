// The text of the properties of a file.

ghost use Rattle.std.specs.Prelude.{◌≡◌, ◌++◌, [], List, ℕ, IfOk, OnOk, map, option_copied, slice_get};
ghost use Rattle.jani_tree.specs.Syntax.{file_of};
ghost use Rattle.jani_meaning.specs.Elements.{labels as labels_of_file};
ghost use Rattle.name_table.specs.Gathered.{told};
ghost use Rattle.name_table.specs.JaniParts.{owned_of};
ghost use Rattle.jani_check.specs.NameFaults.{name_faults};
ghost use Rattle.module_parts.specs.Code.{file_in, names_in, IsReady};
ghost use Rattle.module_parts.specs.Gathered.{AreGathered};
ghost use Rattle.prop_trees.specs.Syntax.{jani_property_of};
ghost use Rattle.jani_props.specs.Reading.{AreOfJani};
ghost use Rattle.prop_to_prism.specs.ToPrism.{all_entries, property_asks};
ghost use Rattle.prop_to_prism.specs.Code.{all_written, at_entry, name_in, names_of, text_by, written_by};
ghost use Rattle.prop_to_prism.specs.Laws.{AreWrittenAs};

use crate::laws::properties_law;
use crate::names::PropertyNames;
use crate::text::write_property;
use bridge_io::List;
use jani_check::CheckedJani;
use jani_tree::JaniFile;
use module_parts::{FileParts, Names, file_parts, new_names};
use name_table::{Entry, NameClass, NameTable, OwnedVar, prism_names};
use prop_trees::JaniProperty;
use std::alloc::{AllocError, Global};

/// The canonical text of the properties of a JANI model under the names of its translation to PRISM (`prism_names`), those of the
/// properties behind all others, by this project's own rule: of each property in order the one that it is translated to, which agrees
/// with it. Against the translated model the text is read back as these, and nothing but a limit is found in it. The properties have the
/// form that reading tells of, and no fault of names and types. An `Err` is want of memory.
pub fn props_to_prism(
    alloc: Global,
    props: &List<JaniProperty>,
    model: &CheckedJani,
) -> Result<List<u8>, AllocError>
    requires { AreOfJani (file_of model.now) (map jani_property_of props.now) }
    ensures { IfOk result (λ text. AreWrittenAs (file_of model.now) (map jani_property_of props.now) text) }
{
    let props = props.as_slice();
    let table = table_of(alloc, props, model)?;
    text_list(alloc, props, model, table.as_slice())
}

// The same, where these are the entries.
fn text_list(
    alloc: Global,
    props: &[JaniProperty],
    model: &CheckedJani,
    entries: &[Entry],
) -> Result<List<u8>, AllocError>
    requires entries { entries.now ≡ all_entries (file_of model.now) (map jani_property_of props.now) }
    requires props { AreOfJani (file_of model.now) (map jani_property_of props.now) }
    ensures { IfOk result (λ text. AreWrittenAs (file_of model.now) (map jani_property_of props.now) text) }
{
    properties_law();
    let file = model.file();
    let text = text_under(alloc, props, file, entries)?;
    Ok(List::from_vec(text))
}

// The entries of the model and of its properties.
fn table_of(
    alloc: Global,
    props: &[JaniProperty],
    model: &CheckedJani,
) -> Result<NameTable, AllocError>
    ensures { IfOk result (λ t. t.entries ≡ all_entries (file_of model.now) (map jani_property_of props.now)) }
{
    let mut table = prism_names(alloc, model)?;
    ask_all(&mut table, props)?;
    Ok(table)
}

// Asks for the names of these properties.
fn ask_all(table: &mut NameTable, props: &[JaniProperty]) -> Result<(), AllocError>
    ensures { OnOk result (table.new ≡ told table.old (property_asks (map jani_property_of props.now))) }
{
    for property in props {
        table.keep_or_make(NameClass::Property, name_of(property))?;
    }
    Ok(())
}

// The name of a property, if it has one.
fn name_of(property: &JaniProperty) -> Option<&str>
    ensures { option_copied result ≡ property.now.name }
{
    match &property.name {
        Some(name) => Some(name.as_str()),
        None => None,
    }
}

// The text under these entries, those of the properties behind those of the file.
fn text_under<'a>(
    alloc: Global,
    props: &[JaniProperty],
    file: &'a JaniFile,
    entries: &'a [Entry],
) -> Result<Vec<u8>, AllocError>
    requires { name_faults (file_of file.now) ≡ [] }
    ensures { IfOk result (λ text. text.items ≡ text_by (file_of file.now) entries.now (map jani_property_of props.now)) }
{
    let parts = file_parts(alloc, file)?;
    text_of_parts(alloc, props, file, &parts, entries)
}

// The same, where these are the parts of the file.
fn text_of_parts<'a>(
    alloc: Global,
    props: &[JaniProperty],
    file: &'a JaniFile,
    parts: &FileParts<'a>,
    entries: &'a [Entry],
) -> Result<Vec<u8>, AllocError>
    requires { AreGathered parts.now (file_of file.now) }
    ensures { IfOk result (λ text. text.items ≡ text_by (file_of file.now) entries.now (map jani_property_of props.now)) }
{
    let names = new_names(
        alloc,
        file,
        parts.automata.as_slice(),
        parts.lasting.as_slice(),
        parts.labels.len(),
        parts.structures.len(),
        entries,
    )?;
    written(alloc, props, &names, parts.labels.as_slice())
}

// The text under these names.
fn written<'a>(
    alloc: Global,
    props: &[JaniProperty],
    names: &Names<'a>,
    labels: &[OwnedVar<'a>],
) -> Result<Vec<u8>, AllocError>
    requires ready { IsReady names.now }
    requires labels { map owned_of labels.now ≡ labels_of_file (file_in names.now) }
    ensures { IfOk result (λ text. text.items ≡ written_by (file_in names.now) (names_in names.now) (map jani_property_of props.now)) }
{
    let own = PropertyNames::of(alloc, names, labels)?;
    all_text(
        alloc,
        props,
        &own,
        names.entries.rewards,
        names.entries.actions,
    )
}

// The text of the properties under the names of these entries.
fn all_text(
    alloc: Global,
    props: &[JaniProperty],
    names: &PropertyNames,
    rewards: &[Entry],
    entries: &[Entry],
) -> Result<Vec<u8>, AllocError>
    ensures { IfOk result (λ text. text.items
        ≡ all_written (name_in names.now) (names_of rewards.now) (map jani_property_of props.now) entries.now) }
{
    let mut text = Vec::new(alloc);
    write_all(alloc, &mut text, names, rewards, entries, props)?;
    Ok(text)
}

// Writes the properties under their new names.
fn write_all(
    alloc: Global,
    out: &mut Vec<u8>,
    names: &PropertyNames,
    rewards: &[Entry],
    entries: &[Entry],
    props: &[JaniProperty],
) -> Result<(), AllocError>
    ensures { OnOk result (out.new.items
        ≡ out.old.items ++ all_written (name_in names.now) (names_of rewards.now) (map jani_property_of props.now) entries.now) }
{
    for i in 0..props.len() {
        write_at(alloc, out, names, rewards, entry_at(entries, i), &props[i])?;
    }
    Ok(())
}

// The entry of this place, if there is one.
fn entry_at(entries: &[Entry], i: usize) -> Option<&Entry>
    ensures { option_copied result ≡ slice_get entries.now i }
{
    entries.get(i)
}

// Writes a property under its entry, if it has one.
fn write_at(
    alloc: Global,
    out: &mut Vec<u8>,
    names: &PropertyNames,
    rewards: &[Entry],
    found: Option<&Entry>,
    property: &JaniProperty,
) -> Result<(), AllocError>
    ensures { OnOk result (out.new.items
        ≡ out.old.items ++ at_entry (name_in names.now) (names_of rewards.now) (option_copied found.entry) (jani_property_of property.now)) }
{
    match found {
        Some(entry) => write_property(alloc, out, names, rewards, entry.name.as_str(), property),
        None => Ok(()),
    }
}
