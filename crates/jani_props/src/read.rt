// The properties of a file, or the least fault of the first phase that has any.
ghost use Rattle.std.specs.Prelude.{◌≡◌, [], map, IfErr, IfOk, None};
ghost use Rattle.name_rules.specs.Least.{soonest, or_else};
ghost use Rattle.jani_check.specs.Faults.{IsChecked};
ghost use Rattle.jani_check.specs.Things.{global_thing};
ghost use Rattle.jani_tree.specs.Syntax.{file_of};
ghost use Rattle.prop_trees.specs.Syntax.{jani_ask_of, jani_property_of};
ghost use Rattle.prop_trees.specs.Trees.{Name, ask_with};
ghost use Rattle.jani_props.specs.Faults.{filed_by, names_wrong, numbered, shape_faults, structure_number, types_wrong};
ghost use Rattle.jani_props.specs.Model.{numbers_of, things_of};
ghost use Rattle.jani_props.specs.Syntax.{ask_of, written_of};
ghost use Rattle.jani_props.specs.Reading.{AreRead, IsRefusal};

use crate::model::{ModelNames, given_names};
use crate::names::judge_names;
use crate::paths::properties;
use crate::shape::judge;
use crate::table::PropForm;
use crate::types::judge_types;
use crate::written::{Written, WrittenAsk};
use bridge_io::{List, Named, Refused};
use jani_check::CheckedJani;
use jani_tree::JaniFile;
use name_rules::Judged;
use prop_trees::{JaniAsk, JaniProperty};
use std::alloc::{AllocError, Global};

// The least fault of the shape of the properties.
fn shape_fault(alloc: Global, file: &JaniFile) -> Judged
    ensures { IfOk result (λ best. best ≡ soonest None (shape_faults (file_of file.now))) }
{
    let given = given_names(alloc, file)?;
    Ok(judge(&given, PropForm::Properties, &file.properties, None))
}

// The least fault of names, or where there is none, of types.
#[tactic(auto, using(jani_check::proofs::Phases::none_first, crate::proofs::Refusing::some_first))]
fn meaning_fault(alloc: Global, names: &ModelNames, written: &[Written]) -> Judged
    ensures { IfOk result
        (λ best. best ≡ soonest None (or_else (names_wrong (things_of names.now) (numbers_of names.now) (map written_of written.now)) (types_wrong (things_of names.now) (map written_of written.now)))) }
{
    let wrong = judge_names(alloc, names, written)?;
    match wrong {
        Some(fault) => Ok(Some(fault)),
        None => {
            let best = judge_types(alloc, names, written)?;
            Ok(best)
        }
    }
}

// The number of a reward structure.
fn numbered(names: &ModelNames, structure: &Named) -> usize
    ensures { result ≡ numbered (numbers_of names.now) structure.now }
{
    match names.structure(structure.name.as_str()) {
        Some(number) => number,
        None => 0,
    }
}

// What is asked, with its reward structure numbered.
fn filed_ask(names: &ModelNames, ask: WrittenAsk) -> JaniAsk
    ensures { jani_ask_of result ≡ ask_with (λ e. e) (numbered (numbers_of names.now)) (ask_of ask) }
{
    match ask {
        WrittenAsk::PMax => JaniAsk::PMax,
        WrittenAsk::PMin => JaniAsk::PMin,
        WrittenAsk::PBound(compare, e) => JaniAsk::PBound(compare, e),
        WrittenAsk::RMax(structure) => JaniAsk::RMax(numbered(names, &structure)),
        WrittenAsk::RMin(structure) => JaniAsk::RMin(numbered(names, &structure)),
    }
}

// The property of the model.
fn filed(names: &ModelNames, written: Written) -> JaniProperty
    ensures { jani_property_of result ≡ filed_by (numbers_of names.now) (written_of written) }
{
    let Written { name, ask, path } = written;
    JaniProperty {
        name: Some(name.name),
        ask: filed_ask(names, ask),
        path,
    }
}

// The properties of the model.
fn filed_all(
    alloc: Global,
    names: &ModelNames,
    written: Vec<Written>,
) -> Result<List<JaniProperty>, AllocError>
    ensures { IfOk result
        (λ ps. map jani_property_of ps ≡ map (filed_by (numbers_of names.now)) (map written_of written.items)) }
{
    let mut list = List::with_capacity(alloc, written.len())?;
    for p in written {
        list.push(filed(names, p))?;
    }
    Ok(list)
}

// The properties of a judged file whose properties have no fault of shape, by the names of its model, or the least fault of the first
// phase that has any.
fn read_by(
    alloc: Global,
    file: &JaniFile,
    names: &ModelNames,
) -> Result<List<JaniProperty>, Refused>
    requires checked { IsChecked (file_of file.now) }
    requires shape { shape_faults (file_of file.now) ≡ [] }
    requires things { (x : Name) → things_of names.now x ≡ global_thing (file_of file.now) x }
    requires numbers { (x : Name) → numbers_of names.now x ≡ structure_number (file_of file.now) x }
    ensures ok { IfOk result (λ ps. AreRead (file_of file.now) (map jani_property_of ps)) }
    ensures err { IfErr result (IsRefusal (file_of file.now)) }
{
    let written = properties(alloc, &file.properties)?;
    let least = meaning_fault(alloc, names, &written)?;
    match least {
        Some(fault) => Err(Refused::At(fault)),
        None => {
            let list = filed_all(alloc, names, written)?;
            Ok(list)
        }
    }
}

// The same, with the names of its model gathered.
fn shaped(alloc: Global, file: &JaniFile) -> Result<List<JaniProperty>, Refused>
    requires checked { IsChecked (file_of file.now) }
    requires shape { shape_faults (file_of file.now) ≡ [] }
    ensures ok { IfOk result (λ ps. AreRead (file_of file.now) (map jani_property_of ps)) }
    ensures err { IfErr result (IsRefusal (file_of file.now)) }
{
    let names = ModelNames::of(alloc, file)?;
    read_by(alloc, file, &names)
}

/// The properties of a judged file, which its "properties" spell where they have no fault: literals are in normal form, operators have
/// their operands, and a query of rewards names a structure of the model and asks it of paths `F e`. Else the least fault of the first
/// phase that has any:
/// - the shape of the value: `TooLong` at a name of more than 255 bytes, `MissingMember` at the closing brace of an object that lacks a
///   member, `UnknownMember` at the key of a member that is not known, `WrongShape` at a value of another kind than may stand there,
///   `PropertyLeftOut` at a form that is left out;
/// - names: `TwiceNamed` at the later of two names of properties that are the same, `Unknown` at a name that properties may not read and
///   at a reward structure that there is not;
/// - types: `WrongType` at an expression or a node of it, `NotConstant` at a bound that names something that varies.
///
/// The only other error is want of memory.
pub fn read_jani_props(alloc: Global, model: &CheckedJani) -> Result<List<JaniProperty>, Refused>
    ensures ok { IfOk result (λ ps. AreRead (file_of model.now) (map jani_property_of ps)) }
    ensures err { IfErr result (IsRefusal (file_of model.now)) }
{
    let file = model.file();
    let least = shape_fault(alloc, file)?;
    match least {
        Some(fault) => Err(Refused::At(fault)),
        None => shaped(alloc, file),
    }
}
