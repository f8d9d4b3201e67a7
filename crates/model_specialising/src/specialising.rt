//! Models specialised, from a file that was read.
ghost use Rattle.std.specs.Prelude.{ℕ, List};
ghost use Rattle.command_words.specs.Words.{specialising_of};
ghost use Rattle.model_process.specs.ReadModels.{IsRead};
ghost use Rattle.model_process.specs.Starts.{IsBehind};
ghost use Rattle.model_specialising.specs.Ends.{SpecialisesOn};

use crate::jani::in_jani;
use crate::prism::in_prism;
use bridge_io::Refused;
use command_words::Specialising;
use model_files::ReadModel;
use model_process::Ending;
use std::alloc::Global;

/// How it ends to specialise a model to the given constants. Those that aren't given stay open. `model` is what reading its file came to, and
/// `length` how many bytes it has: only how much memory is set aside at first rests on it. `next` is the position behind the words that ask
/// for it. `Err` is the least fault of the file, or want of memory.
pub fn specialise_model(
    alloc: Global,
    next: usize,
    specialising: &Specialising,
    length: usize,
    model: ReadModel,
) -> Result<Ending, Refused>
    requires behind { IsBehind 3 (specialising_of specialising.now).given next }
    requires read { (bytes : List ℕ) × IsRead (specialising_of specialising.now).lang bytes model }
    ensures { (bytes : List ℕ) → IsRead (specialising_of specialising.now).lang bytes model → SpecialisesOn (specialising_of specialising.now) bytes result }
{
    let values = specialising.given.as_slice();
    match model {
        ReadModel::Prism(model) => in_prism(alloc, next, values, model),
        ReadModel::Jani(model) => in_jani(alloc, next, values, length, model),
    }
}
