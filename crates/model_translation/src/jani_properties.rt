//! From a JANI file that was read to the text of its properties as those of the PRISM model that it is translated to.
ghost use Rattle.std.specs.Prelude.{ℕ, IfErr, IfOk, List};
ghost use Rattle.jani_tree.specs.Syntax.{file_of};
ghost use Rattle.prop_trees.specs.Trees.{JaniProperty};
ghost use Rattle.jani_props.specs.Reading.{AreRead, IsRefusal};
ghost use Rattle.model_files.specs.JaniFile.{IsReadJani};
ghost use Rattle.prop_to_prism.specs.Laws.{AreWrittenAs};
ghost use Rattle.model_translation.specs.JaniProperties.{TranslatesHeld};

use bridge_io::{List, Refused};
use jani_check::CheckedJani;
use jani_props::read_jani_props;
use prop_to_prism::props_to_prism;
use std::alloc::Global;

/// The canonical text of the properties of a JANI file, as properties of the PRISM model that it is translated to, with which they agree
/// one by one, in order. `model` is what reading the file came to. An `Err` is want of memory, or the least fault of the file, or else of
/// its properties.
pub fn translate_properties(
    alloc: Global,
    model: Result<CheckedJani, Refused>,
) -> Result<List<u8>, Refused>
    ensures { (bytes : List ℕ) → IsReadJani bytes model → TranslatesHeld bytes result }
{
    match model {
        Ok(model) => held(alloc, &model),
        Err(refused) => Err(refused),
    }
}

// The same of a judged file.
fn held(alloc: Global, model: &CheckedJani) -> Result<List<u8>, Refused>
    ensures ok { IfOk result (λ text. (ps : List JaniProperty) × AreRead (file_of model.now) ps × AreWrittenAs (file_of model.now) ps text) }
    ensures refused { IfErr result (IsRefusal (file_of model.now)) }
{
    let props = match read_jani_props(alloc, model) {
        Ok(props) => props,
        Err(refused) => return Err(refused),
    };
    let text = props_to_prism(alloc, &props, model)?;
    Ok(text)
}
