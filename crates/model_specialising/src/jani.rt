//! JANI models specialised.
ghost use Rattle.std.specs.Prelude.{◌≡◌, ◌++◌, ◌∷◌, ℕ, List, [], IfOk, map};
ghost use Rattle.jani_tree.specs.Syntax.{file_of};
ghost use Rattle.jani_tree.specs.Back.{SpellsOnly};
ghost use Rattle.jani_tree.specs.Form.{FileShort};
ghost use Rattle.jani_tree.specs.Text.{jani_text};
ghost use Rattle.jani_check.specs.Faults.{IsChecked};
ghost use Rattle.command_words.specs.Given.{assignment_of};
ghost use Rattle.command_words.specs.declared.request.Lang.TheVariants.{Jani};
ghost use Rattle.model_files.specs.JaniFile.{IsReadJani};
ghost use Rattle.model_files.specs.ReadAgain.{IsShaped};
ghost use Rattle.model_process.specs.Constants.{good_front};
ghost use Rattle.model_process.specs.Starts.{IsBehind};
ghost use Rattle.model_specialising.specs.Ends.{EndsOnJani, SpecialisesIn};

use crate::ending::{failed, finished};
use bridge_io::{List, Refused};
use command_words::Assignment;
use decimal_json::line_feed_law;
use jani_check::{CheckedJani, writable_law};
use jani_tree::{JaniFile, write_jani, written_law};
use model_files::jani_again_law;
use model_process::{Ending, good_front};
use process_core::Given;
use short_names::jani_names_law;
use specialise_jani::{specialise_jani, specialised_clean_law, specialised_meaning_law};
use std::alloc::{AllocError, Global};

/// How it ends on a JANI file of so many bytes, of which this is what reading it came to.
pub(crate) fn in_jani(
    alloc: Global,
    next: usize,
    values: &[Assignment],
    length: usize,
    model: Result<CheckedJani, Refused>,
) -> Result<Ending, Refused>
    requires behind { IsBehind 3 (map assignment_of values.now) next }
    requires read { (bytes : List ℕ) × IsReadJani bytes model }
    ensures { (bytes : List ℕ) → IsReadJani bytes model → SpecialisesIn Jani (map assignment_of values.now) bytes result }
{
    jani_names_law();
    let checked = match model {
        Ok(checked) => checked,
        Err(refused) => return Err(refused),
    };
    let ending = on_jani(alloc, next, values, checked, length)?;
    Ok(ending)
}

/// How it ends on a judged file whose names are short, and whose text takes so many bytes; the file is let go before the new text is
/// made. `Err` is want of memory.
fn on_jani(
    alloc: Global,
    next: usize,
    values: &[Assignment],
    checked: CheckedJani,
    room: usize,
) -> Result<Ending, AllocError>
    requires behind { IsBehind 3 (map assignment_of values.now) next }
    requires short { FileShort (file_of checked) }
    ensures { IfOk result (EndsOnJani (file_of checked) (map assignment_of values.now)) }
{
    let given = good_front(alloc, values)?;
    by_values(alloc, next, values, given.as_slice(), checked, room)
}

/// The same, where these values stand before the first that is past the bound.
fn by_values(
    alloc: Global,
    next: usize,
    values: &[Assignment],
    given: &[Given],
    checked: CheckedJani,
    room: usize,
) -> Result<Ending, AllocError>
    requires behind { IsBehind 3 (map assignment_of values.now) next }
    requires front { given.now ≡ good_front (map assignment_of values.now) }
    requires short { FileShort (file_of checked) }
    ensures { IfOk result (EndsOnJani (file_of checked) (map assignment_of values.now)) }
{
    specialised_meaning_law();
    specialised_clean_law();
    jani_again_law();
    match specialise_jani(alloc, &checked, given) {
        Ok(file) => {
            drop(checked);
            let text = text_of(alloc, room, file)?;
            Ok(finished(next, values, given.len(), text))
        }
        Err(fail) => failed(next, values, fail),
    }
}

/// The canonical text of a file of the profile with short names, which is let go, and a line feed; so many bytes are set aside for it at first. `Err` is
/// want of memory.
fn text_of(alloc: Global, room: usize, file: JaniFile) -> Result<List<u8>, AllocError>
    requires checked { IsChecked (file_of file) }
    requires short { FileShort (file_of file) }
    ensures text { IfOk result (λ text. text ≡ jani_text (file_of file) ++ 10 ∷ []) }
    ensures spells { IfOk result (λ text. SpellsOnly text (file_of file)) }
    ensures shaped { IfOk result IsShaped }
{
    writable_law();
    written_law();
    line_feed_law();
    let mut text = write_jani(alloc, room, &file)?;
    text.push(b'\n')?;
    Ok(text)
}
