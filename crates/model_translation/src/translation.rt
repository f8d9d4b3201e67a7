//! From a PRISM file that was read to the text of the JANI file that it is translated to.
ghost use Rattle.std.specs.Prelude.{ℕ, List, IfOk};
ghost use Rattle.jani_tree.specs.Form.{FileShort};
ghost use Rattle.jani_tree.specs.Syntax.{File, file_of};
ghost use Rattle.model_files.specs.PrismFile.{IsReadPrism};
ghost use Rattle.short_names.specs.ShortNames.{HasShortNames};
ghost use Rattle.short_names.specs.TranslationLaws.{IsHeld};
ghost use Rattle.model_translation.specs.Translation.{IsText, IsJaniText, TranslatesBytes};

use bridge_io::{List, Refused};
use decimal_json::line_feed_law;
use jani_check::{CheckedJani, writable_law};
use jani_tree::{write_jani, written_law};
use prism_check::CheckedPrism;
use prism_to_jani::{to_jani, translated_law};
use short_names::{prism_names_law, translated_names_law};
use std::alloc::{AllocError, Global};

/// The canonical text of the JANI file that a PRISM file is translated to, and a line feed; that file has no fault and means the same
/// process. `model` is what reading it came to, and `length` how many bytes it has: only how much memory is set aside at first rests on it.
/// An `Err` is want of memory, or the least fault of the bytes.
pub fn translate(
    alloc: Global,
    length: usize,
    model: Result<CheckedPrism, Refused>,
) -> Result<List<u8>, Refused>
    requires { (bytes : List ℕ) × IsReadPrism bytes model }
    ensures { (bytes : List ℕ) → IsReadPrism bytes model → TranslatesBytes bytes result }
{
    prism_names_law();
    let checked = match model {
        Ok(checked) => checked,
        Err(refused) => return Err(refused),
    };
    let text = translated(alloc, checked, room_for(length))?;
    Ok(text)
}

/// The text for a judged file whose names are short, which is let go once it is translated. `Err` is want of memory.
fn translated(alloc: Global, checked: CheckedPrism, room: usize) -> Result<List<u8>, AllocError>
    requires { HasShortNames checked.file }
    ensures { IfOk result (λ text. (model : File) × IsJaniText checked.file text model) }
{
    translated_law();
    translated_names_law();
    let model = to_jani(alloc, &checked)?;
    checked.file();
    held(&model);
    drop(checked);
    text_of(alloc, room, &model)
}

/// Each list of a file that the program holds has fewer than 2 ^ 64 members. Nothing is done but that they are counted.
pub(crate) fn held(model: &CheckedJani)
    ensures { IsHeld (file_of model.now) }
{
    let file = model.file();
    let _actions = file.actions.len();
    let _constants = file.constants.len();
    let _variables = file.variables.len();
    let _automata = file.automata.len();
}

/// How many bytes the text of a file takes at most, by and large, where what it is translated from takes so many.
/// No contract is needed: only how much memory is set aside at first rests on it.
pub(crate) fn room_for(length: usize) -> usize {
    length.saturating_mul(6)
}

/// The canonical text of a file of the profile whose names are short, and a line feed; so many bytes are set aside for it at first. `Err` is
/// want of memory.
pub(crate) fn text_of(
    alloc: Global,
    room: usize,
    model: &CheckedJani,
) -> Result<List<u8>, AllocError>
    requires { FileShort (file_of model.now) }
    ensures { IfOk result (λ text. IsText text (file_of model.now)) }
{
    writable_law();
    written_law();
    line_feed_law();
    let mut text = write_jani(alloc, room, model.file())?;
    text.push(b'\n')?;
    Ok(text)
}
