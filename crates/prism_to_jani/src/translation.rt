// A file translated.

ghost use Rattle.std.specs.Prelude.{◌≡◌, map, IfOk};
ghost use Rattle.std.specs.Option.{option_map};
ghost use Rattle.op_trees.specs.Tree.{tree};
ghost use Rattle.prism_tree.specs.Syntax as prism;
ghost use Rattle.prism_tree.specs.Syntax.{var_of};
ghost use Rattle.jani_tree.specs.Syntax as jani;
ghost use Rattle.name_table.specs.Asks.{variables, actions};
ghost use Rattle.jani_automata.specs.Translated.{translated_by};
ghost use Rattle.jani_automata.specs.Code.{names_in};
ghost use Rattle.prism_to_jani.specs.Filed.{filed};
ghost use Rattle.prism_to_jani.specs.Statements.{AreVariables, AreActions, AreEntries, AreNames, IsTranslation};

use crate::composition::elements;
use crate::naming::names;
use crate::syncs::{jani_actions, vectors};
use bridge_io::{List, Named, Text};
use decimal_json::Json;
use jani_automata::{Names, constants, file_automata, global_variables, restriction};
use jani_tree::{JaniAutomaton, JaniConst, JaniExpr, JaniFile, JaniVar, JaniVector};
use name_table::{Entry, NameTable, actions, flat_names, variables};
use prism_tree::{PrismFile, PrismVar};
use std::alloc::{AllocError, Global};

/// The translation of a file whose formulas and copies are written out, whatever the places. `Err` is want of memory.
pub fn translate(alloc: Global, file: &PrismFile) -> Result<JaniFile, AllocError>
    ensures { IfOk result (λ r. IsTranslation (jani.file_of r) (prism.file_of file.now)) }
{
    let vars = file_variables(alloc, file)?;
    file_with_variables(alloc, file, &vars)
}

/// The translation of the file, where these are its variables.
fn file_with_variables(
    alloc: Global,
    file: &PrismFile,
    vars: &Vec<&PrismVar>,
) -> Result<JaniFile, AllocError>
    requires { AreVariables vars.now.items file.now }
    ensures { IfOk result (λ r. IsTranslation (jani.file_of r) (prism.file_of file.now)) }
{
    let acts = file_actions(alloc, file)?;
    file_with_actions(alloc, file, vars, &acts)
}

/// The translation of the file, where these are its variables and its actions.
fn file_with_actions(
    alloc: Global,
    file: &PrismFile,
    vars: &Vec<&PrismVar>,
    acts: &Vec<&Text>,
) -> Result<JaniFile, AllocError>
    requires vars { AreVariables vars.now.items file.now }
    requires acts { AreActions acts.now.items file.now }
    ensures { IfOk result (λ r. IsTranslation (jani.file_of r) (prism.file_of file.now)) }
{
    let table = file_table(alloc, file, vars, acts)?;
    file_with(alloc, file, vars, acts, table.as_slice())
}

/// The variables of the file.
pub(crate) fn file_variables(alloc: Global, file: &PrismFile) -> Result<Vec<&PrismVar>, AllocError>
    ensures { IfOk result (λ xs. AreVariables xs.items file.now) }
{
    let vars = variables(alloc, file)?;
    Ok(vars)
}

/// The actions of the file.
pub(crate) fn file_actions(alloc: Global, file: &PrismFile) -> Result<Vec<&Text>, AllocError>
    ensures { IfOk result (λ xs. AreActions xs.items file.now) }
{
    let acts = actions(alloc, file)?;
    Ok(acts)
}

/// The table of the entries of the file, where these are its variables and its actions.
pub(crate) fn file_table(
    alloc: Global,
    file: &PrismFile,
    vars: &Vec<&PrismVar>,
    acts: &Vec<&Text>,
) -> Result<NameTable, AllocError>
    requires vars { AreVariables vars.now.items file.now }
    requires acts { AreActions acts.now.items file.now }
    ensures { IfOk result (λ t. AreEntries t.entries file.now) }
{
    let table = flat_names(alloc, file, vars.as_slice(), acts.as_slice())?;
    Ok(table)
}

/// The translation of the file, where these are its entries.
fn file_with(
    alloc: Global,
    file: &PrismFile,
    vars: &Vec<&PrismVar>,
    acts: &Vec<&Text>,
    entries: &[Entry],
) -> Result<JaniFile, AllocError>
    requires vars { AreVariables vars.now.items file.now }
    requires acts { AreActions acts.now.items file.now }
    requires entries { AreEntries entries.now file.now }
    ensures { IfOk result (λ r. IsTranslation (jani.file_of r) (prism.file_of file.now)) }
{
    let names = file_names(alloc, file, vars, acts, entries)?;
    file_by(alloc, file, vars, acts, &names)
}

/// The new names of the file, where these are its entries.
pub(crate) fn file_names<'a>(
    alloc: Global,
    file: &'a PrismFile,
    vars: &Vec<&'a PrismVar>,
    acts: &Vec<&'a Text>,
    entries: &'a [Entry],
) -> Result<Names<'a>, AllocError>
    requires vars { AreVariables vars.now.items file.now }
    requires acts { AreActions acts.now.items file.now }
    requires entries { AreEntries entries.now file.now }
    ensures { IfOk result (λ n. AreNames n file.now) }
{
    let names = names(alloc, file, vars.as_slice(), acts.as_slice(), entries)?;
    Ok(names)
}

/// The translation of the file, where these are its new names.
fn file_by(
    alloc: Global,
    file: &PrismFile,
    vars: &Vec<&PrismVar>,
    acts: &Vec<&Text>,
    names: &Names,
) -> Result<JaniFile, AllocError>
    requires vars { AreVariables vars.now.items file.now }
    requires acts { AreActions acts.now.items file.now }
    requires names { AreNames names.now file.now }
    ensures { IfOk result (λ r. IsTranslation (jani.file_of r) (prism.file_of file.now)) }
{
    let all = translated_by(alloc, file, vars.as_slice(), acts.as_slice(), names)?;
    Ok(all)
}

/// The translation under new names.
fn translated_by(
    alloc: Global,
    file: &PrismFile,
    vars: &[&PrismVar],
    acts: &[&Text],
    names: &Names,
) -> Result<JaniFile, AllocError>
    requires vars { map (λ x. var_of x.now) vars.now ≡ variables (prism.file_of file.now) }
    requires acts { map (λ x. x.now) acts.now ≡ actions (prism.file_of file.now) }
    ensures { IfOk result (λ r. jani.file_of r ≡ translated_by (names_in names.now) (prism.file_of file.now)) }
{
    let actions = jani_actions(alloc, file, acts, names)?;
    let constants = constants(
        alloc,
        file.constants.as_slice(),
        names.constants,
        &names.value,
    )?;
    let variables = global_variables(
        alloc,
        file.init.is_some(),
        vars,
        file.labels.as_slice(),
        file.rewards.as_slice(),
        names,
    )?;
    let restrict = restriction(alloc, &file.init, &names.value)?;
    let automata = file_automata(alloc, file, acts, names)?;
    let vectors = vectors(alloc, file, acts, names)?;
    let all = filed(
        alloc, actions, constants, variables, restrict, automata, vectors,
    )?;
    Ok(all)
}

/// A file of these parts, whose elements are its automata.
fn filed(
    alloc: Global,
    actions: List<Named>,
    constants: List<JaniConst>,
    variables: List<JaniVar>,
    restrict: Option<JaniExpr>,
    automata: List<JaniAutomaton>,
    vectors: List<JaniVector>,
) -> Result<JaniFile, AllocError>
    ensures { IfOk result
        (λ r. jani.file_of r
        ≡ filed actions (map jani.const_of constants) (map jani.var_of variables) (option_map tree restrict) (map jani.automaton_of automata) (map jani.vector_of vectors)) }
{
    let elements = elements(alloc, automata.as_slice())?;
    Ok(JaniFile {
        actions,
        constants,
        variables,
        restrict,
        automata,
        elements,
        elements_at: 0,
        vectors,
        properties: Json::Array(0, List::new(alloc)),
    })
}
