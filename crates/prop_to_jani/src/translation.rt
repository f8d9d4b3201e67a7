// The properties of a judged model translated.

ghost use Rattle.std.specs.Prelude.{◌≡◌, List, ℕ, IfOk, OnOk, length, map, option_copied};
ghost use Rattle.std.specs.List.{zip};
ghost use Rattle.prism_names.specs.Flat.{flat};
ghost use Rattle.prism_names.specs.Places.{IsPlaceOrder, at_places};
ghost use Rattle.prism_print.specs.Same.{bare_file};
ghost use Rattle.prism_rewriter.specs.Filling.{bodies_after};
ghost use Rattle.prism_rewriter.specs.Tables.{body_in};
ghost use Rattle.prism_tree.specs.Syntax.{file_of, var_of};
ghost use Rattle.jani_table.specs.Node.{node};
ghost use Rattle.jani_tree.specs.Canonical.{list_node};
ghost use Rattle.name_table.specs.declared.class.Target.TheVariants.{Jani};
ghost use Rattle.name_table.specs.Asks.{entries, new_names, variables};
ghost use Rattle.name_table.specs.Gathered.{told};
ghost use Rattle.prop_trees.specs.Form.{AreOfPrism};
ghost use Rattle.prop_trees.specs.Syntax.{property_of};
ghost use Rattle.prop_to_jani.specs.Code.{IsFlatOf, entry_node, name_in};
ghost use Rattle.prop_to_jani.specs.Laws.{IsTranslated};
ghost use Rattle.prop_to_jani.specs.ToJani.{all_entries, new_property_name, property_asks, property_entries, reward_names, to_jani_node};

use crate::expressions::Translator;
use crate::names::PropertyNames;
use crate::tables::{marked_names, property_names};
use bridge_io::List;
use decimal_json::Json;
use gathering::{drop_from, first_of, shorter};
use name_table::{Entry, NameClass, NameTable, actions, flat_names, variables};
use prism_check::{CheckedPrism, FlatPrism, flatten};
use prism_rewriter::{BodyTable, written_bodies};
use prism_tree::{PrismFile, PrismVar};
use prop_trees::Property;
use std::alloc::{AllocError, Global};

/// The value of the "properties" of the JANI model that the model is translated to: of each property in order the one that it is
/// translated to, which agrees with it. The properties have the form that reading tells of, and no fault of names and types. `Err` is
/// want of memory.
pub fn props_to_jani(
    alloc: Global,
    props: &List<Property>,
    model: &CheckedPrism,
) -> Result<Json, AllocError>
    requires { AreOfPrism model.now.file (map property_of props.now) }
    ensures { IfOk result (λ v. IsTranslated model.now (map property_of props.now) (node v)) }
{
    let written = flatten(alloc, model)?;
    flat_props_to_jani(alloc, props, model, &written)
}

/// The same, where this is the model's file with its formulas and its copies of modules written out, whatever the places.
pub fn flat_props_to_jani(
    alloc: Global,
    props: &List<Property>,
    model: &CheckedPrism,
    written: &FlatPrism,
) -> Result<Json, AllocError>
    requires written { bare_file written.now ≡ bare_file (flat model.now.file) }
    requires props { AreOfPrism model.now.file (map property_of props.now) }
    ensures { IfOk result (λ v. IsTranslated model.now (map property_of props.now) (node v)) }
{
    of_flat(alloc, props.as_slice(), model, written.file())
}

/// The same, where this is the tree of the model's file written out.
fn of_flat(
    alloc: Global,
    props: &[Property],
    model: &CheckedPrism,
    file: &PrismFile,
) -> Result<Json, AllocError>
    requires flat { IsFlatOf model.now.file (file_of file.now) }
    requires props { AreOfPrism model.now.file (map property_of props.now) }
    ensures { IfOk result (λ v. IsTranslated model.now (map property_of props.now) (node v)) }
{
    let vars = variables(alloc, file)?;
    of_variables(alloc, props, model, file, vars.as_slice())
}

/// The same, where these are its variables.
fn of_variables<'a>(
    alloc: Global,
    props: &[Property],
    model: &CheckedPrism,
    file: &'a PrismFile,
    vars: &[&'a PrismVar],
) -> Result<Json, AllocError>
    requires flat { IsFlatOf model.now.file (file_of file.now) }
    requires vars { map (λ x. var_of x.now) vars.now ≡ variables (file_of file.now) }
    requires props { AreOfPrism model.now.file (map property_of props.now) }
    ensures { IfOk result (λ v. IsTranslated model.now (map property_of props.now) (node v)) }
{
    let table = table_of(alloc, file, vars, props)?;
    written(alloc, props, model, file, vars, table.as_slice())
}

/// The entries of the model and of its properties, where the model's file is written out and these are its variables.
fn table_of(
    alloc: Global,
    file: &PrismFile,
    vars: &[&PrismVar],
    props: &[Property],
) -> Result<NameTable, AllocError>
    requires { map (λ x. var_of x.now) vars.now ≡ variables (file_of file.now) }
    ensures { IfOk result (λ t. t.entries ≡ all_entries (file_of file.now) (map property_of props.now)) }
{
    let mut table = model_table(alloc, file, vars)?;
    ask_properties(&mut table, props)?;
    Ok(table)
}

/// The entries of the model.
fn model_table(alloc: Global, file: &PrismFile, vars: &[&PrismVar]) -> Result<NameTable, AllocError>
    requires { map (λ x. var_of x.now) vars.now ≡ variables (file_of file.now) }
    ensures { IfOk result (λ t. (t.target ≡ Jani) × (t.entries ≡ entries (file_of file.now))) }
{
    let acts = actions(alloc, file)?;
    flat_names(alloc, file, vars, acts.as_slice())
}

/// Asks for the names of properties.
fn ask_properties(table: &mut NameTable, props: &[Property]) -> Result<(), AllocError>
    ensures { OnOk result (table.new ≡ told table.old (property_asks (map property_of props.now))) }
{
    for p in props {
        table.keep_or_make(NameClass::Property, name_of(p))?;
    }
    Ok(())
}

/// The name of a property, if it has one.
fn name_of(p: &Property) -> Option<&str>
    ensures { option_copied result ≡ p.now.name }
{
    match &p.name {
        Some(name) => Some(name.as_str()),
        None => None,
    }
}

/// The value of the properties, where the model's file is written out and these are its variables and all entries.
fn written<'a>(
    alloc: Global,
    props: &[Property],
    model: &CheckedPrism,
    file: &'a PrismFile,
    vars: &[&'a PrismVar],
    all: &[Entry],
) -> Result<Json, AllocError>
    requires flat { IsFlatOf model.now.file (file_of file.now) }
    requires vars { map (λ x. var_of x.now) vars.now ≡ variables (file_of file.now) }
    requires entries { all.now ≡ all_entries (file_of file.now) (map property_of props.now) }
    requires props { AreOfPrism model.now.file (map property_of props.now) }
    ensures { IfOk result (λ v. IsTranslated model.now (map property_of props.now) (node v)) }
{
    let entries = parts_of(file, vars.len(), props, all);
    let news = marked_names(alloc, entries.model)?;
    let names = property_names(alloc, file, vars, news.as_slice())?;
    with_names(alloc, props, model, &names, entries)
}

/// The same, where names become these.
fn with_names(
    alloc: Global,
    props: &[Property],
    model: &CheckedPrism,
    names: &PropertyNames,
    entries: Entries,
) -> Result<Json, AllocError>
    requires names { (x : List ℕ) → name_in names.now x ≡ new_property_name (flat model.now.file) x }
    requires rewards { map (λ e. e.name) entries.rewards.now ≡ reward_names (flat model.now.file) }
    requires properties { entries.properties.now ≡ property_entries (flat model.now.file) (map property_of props.now) }
    requires props { AreOfPrism model.now.file (map property_of props.now) }
    ensures { IfOk result (λ v. IsTranslated model.now (map property_of props.now) (node v)) }
{
    let file = model.file();
    let bodies = written_bodies(alloc, file.formulas.as_slice(), model.order())?;
    with_bodies(alloc, props, model, names, &bodies, entries)
}

/// The same, where these are the bodies of the model's formulas.
fn with_bodies(
    alloc: Global,
    props: &[Property],
    model: &CheckedPrism,
    names: &PropertyNames,
    bodies: &BodyTable,
    entries: Entries,
) -> Result<Json, AllocError>
    requires order { IsPlaceOrder model.now.file model.now.order }
    requires names { (x : List ℕ) → name_in names.now x ≡ new_property_name (flat model.now.file) x }
    requires bodies { (x : List ℕ) → body_in bodies.now x ≡ bodies_after (at_places model.now.file.formulas model.now.order) x }
    requires rewards { map (λ e. e.name) entries.rewards.now ≡ reward_names (flat model.now.file) }
    requires properties { entries.properties.now ≡ property_entries (flat model.now.file) (map property_of props.now) }
    ensures { IfOk result (λ v. node v ≡ to_jani_node model.now.file (map property_of props.now)) }
{
    let translator = Translator {
        names,
        bodies,
        rewards: entries.rewards,
    };
    properties_json(alloc, &translator, props, entries.properties)
}

/// The value of properties, each under the name of its entry.
fn properties_json(
    alloc: Global,
    translator: &Translator,
    props: &[Property],
    entries: &[Entry],
) -> Result<Json, AllocError>
    ensures { IfOk result (λ v. node v ≡ list_node (λ p. entry_node translator.now p.0 p.1) 0 (zip (map property_of props.now) entries.now)) }
{
    let mut all = List::new(alloc);
    for i in 0..shorter(props.len(), entries.len()) {
        let value = translator.property(alloc, &props[i], entries[i].name.as_str())?;
        all.push(value)?;
    }
    Ok(Json::Array(0, all))
}

// ---- entries

/// The entries of a model, those of its reward structures among them, and those of its properties.
#[derive(Clone, Copy)]
struct Entries<'a> {
    model: &'a [Entry],
    rewards: &'a [Entry],
    properties: &'a [Entry],
}

/// The parts of all entries, where the file has so many variables, and these are the properties.
fn parts_of<'a>(file: &PrismFile, vars: usize, props: &[Property], all: &'a [Entry]) -> Entries<'a>
    requires vars { vars ≡ length (variables (file_of file.now)) }
    requires entries { all.now ≡ all_entries (file_of file.now) (map property_of props.now) }
    ensures model { result.model.now ≡ entries (file_of file.now) }
    ensures rewards { result.rewards.now ≡ (new_names (file_of file.now)).rewards }
    ensures properties { result.properties.now ≡ property_entries (file_of file.now) (map property_of props.now) }
{
    let behind = all.len() - props.len();
    let model = first_of(behind, all);
    let named = drop_from(vars, drop_from(file.constants.len(), model));
    let rewards = drop_from(file.labels.len(), named);
    Entries {
        model,
        rewards: first_of(file.rewards.len(), rewards),
        properties: drop_from(behind, all),
    }
}
