//! From a PRISM file that was read and the bytes of a properties file to the text of a JANI file with properties.
ghost use Rattle.std.specs.Prelude.{◌≡◌, ◌<◌, ◌^◌, ℕ, List, IfOk, length, map};
ghost use Rattle.prism_names.specs.Flat.{flat};
ghost use Rattle.prism_print.specs.Same.{bare_file};
ghost use Rattle.jani_table.specs.Node.{Node, node};
ghost use Rattle.jani_tree.specs.Form.{KeysOnce, NormalNode};
ghost use Rattle.jani_tree.specs.Syntax.{File, file_of};
ghost use Rattle.prop_trees.specs.Form.{AreOfPrism};
ghost use Rattle.prop_trees.specs.Syntax.{property_of};
ghost use Rattle.prop_to_jani.specs.Laws as of_properties;
ghost use Rattle.prop_to_jani.specs.ReadBack.{with_properties};
ghost use Rattle.model_files.specs.PrismFile.{IsReadPrism};
ghost use Rattle.short_names.specs.ShortNames.{HasShortNames};
ghost use Rattle.model_translation.specs.WithProperties.{HaveShortNames, IsFileWith, IsWrittenWith, TranslatesFiles};

use crate::translation::{held, room_for, text_of};
use bridge_io::{Fault, List, Refused};
use decimal_json::Json;
use jani_check::CheckedJani;
use prism_check::{CheckedPrism, FlatPrism, flatten};
use prism_to_jani::flat_to_jani;
use prop_check::read_props;
use prop_to_jani::flat_props_to_jani;
use prop_trees::Property;
use short_names::{
    few_asks_law, flat_names_law, prism_names_law, property_names_law, translated_names_law,
};
use std::alloc::{AllocError, Global};

/// Why a model and its properties aren't translated.
#[derive(Drop)]
pub enum FilesRefused {
    /// Want of memory.
    Memory(AllocError),
    /// The file of the model has a fault.
    Model(Fault),
    /// It has none, and that of the properties has one.
    Properties(Fault),
}

impl From<AllocError> for FilesRefused {
    ghost use Rattle.model_translation.specs.declared.properties.FilesRefused.TheVariants.{Memory};

    ghost from_gives = { λ e r. r ≡ Memory e };

    fn from(e: AllocError) -> FilesRefused {
        FilesRefused::Memory(e)
    }
}

/// The canonical text of the JANI file that a PRISM file is translated to, with the properties that the bytes hold of it, and a line feed.
/// That file means the same process, and its properties agree with those that were read, one by one, in order; they are what is read of it.
/// `model` is what reading the PRISM file came to, and `length` how many bytes it has: only how much memory is set aside at first rests on
/// it. An `Err` is want of memory, or the least fault of the model, or else of the properties.
pub fn translate_with_properties(
    alloc: Global,
    length: usize,
    model: Result<CheckedPrism, Refused>,
    properties: &[u8],
) -> Result<List<u8>, FilesRefused>
    requires { (bytes : List ℕ) × IsReadPrism bytes model }
    ensures { (bytes : List ℕ) → IsReadPrism bytes model → TranslatesFiles bytes properties.now result }
{
    prism_names_law();
    property_names_law();
    let checked = match model {
        Ok(checked) => checked,
        Err(Refused::At(fault)) => return Err(FilesRefused::Model(fault)),
        Err(Refused::Memory(e)) => return Err(FilesRefused::Memory(e)),
    };
    let props = match read_props(alloc, properties, &checked) {
        Ok(props) => props,
        Err(Refused::At(fault)) => return Err(FilesRefused::Properties(fault)),
        Err(Refused::Memory(e)) => return Err(FilesRefused::Memory(e)),
    };
    let room = room_for(length.saturating_add(properties.len()));
    let text = written(alloc, checked, props, room)?;
    Ok(text)
}

// The text for a judged file and its properties, whose names are short; the properties are let go once they are translated. `Err` is want of
// memory.
fn written(
    alloc: Global,
    checked: CheckedPrism,
    props: List<Property>,
    room: usize,
) -> Result<List<u8>, AllocError>
    requires names { HasShortNames checked.file }
    requires titles { HaveShortNames (map property_of props) }
    requires props { AreOfPrism checked.file (map property_of props) }
    ensures { IfOk result (λ text. (model : File) × (value : Node) × IsWrittenWith checked (map property_of props) text model value) }
{
    translated_names_law();
    flat_names_law();
    few_asks_law();
    counted(&props);
    let full = file_with(alloc, &checked, props)?;
    checked.file();
    held(&full);
    drop(checked);
    text_of(alloc, room, &full)
}

// A list that the program holds has fewer than 2 ^ 64 members. Nothing is done but that they are counted.
fn counted(props: &List<Property>)
    ensures { length (map property_of props.now) < 2 ^ 64 }
{
    let _count = props.len();
}

// The file with its properties. `Err` is want of memory.
fn file_with(
    alloc: Global,
    checked: &CheckedPrism,
    props: List<Property>,
) -> Result<CheckedJani, AllocError>
    requires { AreOfPrism checked.now.file (map property_of props) }
    ensures { IfOk result (λ j. IsFileWith checked.now (map property_of props) (file_of j)) }
{
    let flat = flatten(alloc, checked)?;
    flat_file_with(alloc, checked, &flat, props)
}

// The same, where this is the file written out.
fn flat_file_with(
    alloc: Global,
    checked: &CheckedPrism,
    written: &FlatPrism,
    props: List<Property>,
) -> Result<CheckedJani, AllocError>
    requires written { bare_file written.now ≡ bare_file (flat checked.now.file) }
    requires props { AreOfPrism checked.now.file (map property_of props) }
    ensures { IfOk result (λ j. IsFileWith checked.now (map property_of props) (file_of j)) }
{
    let value = value_of(alloc, checked, written, props)?;
    let model = flat_to_jani(alloc, checked, written)?;
    with_properties(alloc, model, value)
}

// The value of the properties, which are let go.
fn value_of(
    alloc: Global,
    checked: &CheckedPrism,
    written: &FlatPrism,
    props: List<Property>,
) -> Result<Json, AllocError>
    requires written { bare_file written.now ≡ bare_file (flat checked.now.file) }
    requires props { AreOfPrism checked.now.file (map property_of props) }
    ensures { IfOk result (λ v. of_properties.IsTranslated checked.now (map property_of props) (node v)) }
{
    flat_props_to_jani(alloc, &props, checked, written)
}

// The file with this value for its properties. `Err` is want of memory.
fn with_properties(
    alloc: Global,
    model: CheckedJani,
    value: Json,
) -> Result<CheckedJani, AllocError>
    requires normal { NormalNode (node value) }
    requires once { KeysOnce (node value) }
    ensures { IfOk result (λ j. file_of j ≡ with_properties (file_of model) (node value)) }
{
    let mut file = model.into_file();
    file.properties = value;
    CheckedJani::without_fault(alloc, file)
}
