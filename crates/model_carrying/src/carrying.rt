//! Paths carried between files.
ghost use Rattle.std.specs.Prelude.{◌∷◌, ℕ, List, []};
ghost use Rattle.command_words.specs.Words.{carrying_of};
ghost use Rattle.model_process.specs.ReadModels.{IsRead};
ghost use Rattle.model_process.specs.Starts.{IsBehind};
ghost use Rattle.model_carrying.specs.Ends.{CarriesOn};

use crate::from_jani::from_jani;
use crate::from_prism::from_prism;
use command_words::Carrying;
use model_files::ReadModel;
use model_process::{ClaimRefused, Ending};
use std::alloc::Global;

/// How it ends to carry a path from a model to its counterpart in the other language. `model` is what reading the model's file came to, and
/// `path` has the bytes of the path's. `next` is the position behind the words that ask for it. `Err` is the least fault of the model's file,
/// of which those of a JANI file without translation are; or the first line that breaks the form of the path's file, where both models start;
/// or want of memory.
pub fn carry_between(
    alloc: Global,
    next: usize,
    carrying: &Carrying,
    model: ReadModel,
    path: &[u8],
) -> Result<Ending, ClaimRefused>
    requires behind { IsBehind 4 (carrying_of carrying.now).given next }
    requires read { (bytes : List ℕ) × IsRead (carrying_of carrying.now).lang bytes model }
    ensures { (bytes : List ℕ) → IsRead (carrying_of carrying.now).lang bytes model → CarriesOn (carrying_of carrying.now) (bytes ∷ path.now ∷ []) result }
{
    match model {
        ReadModel::Prism(model) => from_prism(alloc, next, carrying, model, path),
        ReadModel::Jani(model) => from_jani(alloc, next, carrying, model, path),
    }
}
