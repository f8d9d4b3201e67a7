// A judged JANI file translated.

ghost use Rattle.std.specs.Prelude.{◌≡◌, [], IfErr, IfOk};
ghost use Rattle.prism_tree.specs.Syntax as prism;
ghost use Rattle.jani_tree.specs.Syntax.{file_of};
ghost use Rattle.jani_tree.specs.Faults.{FailsFor};
ghost use Rattle.prism_translation_laws.specs.Lines.{lines};
ghost use Rattle.prism_translation_laws.specs.Refused.{refused};
ghost use Rattle.prism_translation_laws.specs.Translated.{translated};
ghost use Rattle.jani_to_prism.specs.Promise.{IsPrismOf};

use crate::laws::translated_law;
use crate::{CheckedPrismText, translate};
use bridge_io::Refused;
use jani_check::CheckedJani;
use prism_translation_laws::{form_law, names_law, same_meaning_law, sound_types_law};
use std::alloc::Global;

/// The PRISM file that a JANI file without fault is translated to, and the comment lines that stand before it. The file has no
/// fault but, maybe, that it is larger than this program reads; it has the shape that
/// [docs/TRANSLATION.md](../../../docs/TRANSLATION.md) tells, and it denotes the same process as the JANI file, under every
/// valuation.
///
/// An `Err` is want of memory, or the least fault of the first kind that the file has any of: `SharedWrite` at the name of a
/// global variable that edges of two elements write, one of them with an action or with rewards; `TooLarge` where the
/// result would have more than 200,000 commands or 2,000,000 nodes of expressions, or the locations of an element give a
/// label more than 1,024 values, or an element has more than 1,024 edges, its loop counted, at one location with an action
/// that it accepts everywhere, or the initial condition would have more than 1,024 parts, or a part of it.
pub fn to_prism(alloc: Global, checked: &CheckedJani) -> Result<CheckedPrismText, Refused>
    ensures ok { IfOk result (λ t. (refused (file_of checked.now) ≡ []) × IsPrismOf (file_of checked.now) (prism.file_of t.file)) }
    ensures lines { IfOk result (λ t. t.lines ≡ lines (file_of checked.now)) }
    ensures refused { IfErr result (FailsFor (refused (file_of checked.now))) }
{
    promised(checked);
    translated_law();
    translate(alloc, checked)
}

/// What is promised holds of the translation of a judged file: a function that does nothing, whose contract says so.
fn promised(checked: &CheckedJani)
    ensures { refused (file_of checked.now) ≡ [] → IsPrismOf (file_of checked.now) (translated (file_of checked.now)) }
{
    form_law();
    names_law();
    sound_types_law();
    same_meaning_law();
    checked.file();
}
