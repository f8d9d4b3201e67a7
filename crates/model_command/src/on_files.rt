//! What is made of a model, with its file read at this one place.
ghost use Rattle.std.specs.Prelude.{◌≡◌, length};
ghost use Rattle.command_words.specs.Words.{carrying_of, check, checking_of, files_of, specialising_of, walking_of, words_before, words_before_given};
ghost use Rattle.model_carrying.specs.Ends.{CarriesOn};
ghost use Rattle.model_command.specs.Tasks.{Judged};
ghost use Rattle.model_files.specs.PrismFile.{IsReadPrism};
ghost use Rattle.model_files.specs.JaniFile.{IsReadJani};
ghost use Rattle.model_process.specs.Claims.{JudgesOn};
ghost use Rattle.model_process.specs.ReadModels.{IsRead};
ghost use Rattle.model_process.specs.Starts.{IsBehind};
ghost use Rattle.model_process.specs.Walks.{WalksOn};
ghost use Rattle.model_specialising.specs.Ends.{SpecialisesOn};
ghost use Rattle.model_translation.specs.WithProperties.{TranslatesFiles};

use crate::checking::{count_jani, count_prism};
use crate::to_prism::translate_to_prism;
use bridge_io::{List, Refused};
use command_words::{Carrying, Checking, Lang, Specialising, Task, Walking};
use jani_check::CheckedJani;
use model_carrying::carry_between;
use model_files::{ReadModel, read_jani, read_prism};
use model_process::{ClaimRefused, Ending, judge_claim, show_or_walk};
use model_specialising::specialise_model;
use model_translation::{FilesRefused, translate, translate_properties, translate_with_properties};
use prism_check::CheckedPrism;
use std::alloc::Global;

/// What the bytes are as a model of this language.
fn model_in(alloc: Global, lang: Lang, bytes: &[u8]) -> ReadModel
    ensures { IsRead lang bytes.now result }
{
    match lang {
        Lang::Prism => ReadModel::Prism(prism_in(alloc, bytes)),
        Lang::Jani => ReadModel::Jani(jani_in(alloc, bytes)),
    }
}

/// What the bytes are as a PRISM file.
pub(crate) fn prism_in(alloc: Global, bytes: &[u8]) -> Result<CheckedPrism, Refused>
    ensures { IsReadPrism bytes.now result }
{
    read_prism(alloc, bytes)
}

/// What the bytes are as a JANI file.
pub(crate) fn jani_in(alloc: Global, bytes: &[u8]) -> Result<CheckedJani, Refused>
    ensures { IsReadJani bytes.now result }
{
    read_jani(alloc, bytes)
}

/// What the task makes of the bytes, or their least fault.
pub(crate) fn perform(alloc: Global, task: Task, bytes: &[u8]) -> Result<List<u8>, Refused>
    ensures { Judged task bytes.now result }
{
    match task {
        Task::ToJani => translate(alloc, bytes.len(), prism_in(alloc, bytes)),
        Task::ToPrism => translate_to_prism(alloc, jani_in(alloc, bytes)),
        Task::ToPrismProps => translate_properties(alloc, jani_in(alloc, bytes)),
        Task::CheckPrism => count_prism(alloc, prism_in(alloc, bytes)),
        Task::CheckJani => count_jani(alloc, jani_in(alloc, bytes)),
    }
}

/// What a model with its properties is translated to, or the file that is refused.
pub(crate) fn translate_pair(
    alloc: Global,
    model: &[u8],
    properties: &[u8],
) -> Result<List<u8>, FilesRefused>
    ensures { TranslatesFiles model.now properties.now result }
{
    translate_with_properties(alloc, model.len(), prism_in(alloc, model), properties)
}

/// How a walk ends, or the least fault of the bytes.
pub(crate) fn walk_on(
    alloc: Global,
    next: usize,
    walking: &Walking,
    bytes: &[u8],
) -> Result<Ending, Refused>
    requires { IsBehind (words_before (walking_of walking.now)) (walking_of walking.now).given next }
    ensures { WalksOn (walking_of walking.now).lang (walking_of walking.now) bytes.now result }
{
    show_or_walk(alloc, next, walking, model_in(alloc, walking.lang, bytes))
}

/// How a claim is judged, or the file that is refused.
pub(crate) fn judge_on(
    alloc: Global,
    next: usize,
    checking: &Checking,
    files: &[List<u8>],
) -> Result<Ending, ClaimRefused>
    requires behind { IsBehind (words_before_given (checking_of checking.now)) (checking_of checking.now).given next }
    requires files { length files.now ≡ length (files_of (check (checking_of checking.now))) }
    ensures { JudgesOn (checking_of checking.now) files.now result }
{
    let model = model_in(alloc, checking.lang, files[0].as_slice());
    judge_claim(alloc, next, checking, model, &files[1..])
}

/// How a path is carried, or the file that is refused.
pub(crate) fn carry_on(
    alloc: Global,
    next: usize,
    carrying: &Carrying,
    files: &[List<u8>],
) -> Result<Ending, ClaimRefused>
    requires behind { IsBehind 4 (carrying_of carrying.now).given next }
    requires files { length files.now ≡ 2 }
    ensures { CarriesOn (carrying_of carrying.now) files.now result }
{
    let model = model_in(alloc, carrying.lang, files[0].as_slice());
    carry_between(alloc, next, carrying, model, files[1].as_slice())
}

/// How a model is specialised, or the least fault of the bytes.
pub(crate) fn specialise_on(
    alloc: Global,
    next: usize,
    specialising: &Specialising,
    bytes: &[u8],
) -> Result<Ending, Refused>
    requires { IsBehind 3 (specialising_of specialising.now).given next }
    ensures { SpecialisesOn (specialising_of specialising.now) bytes.now result }
{
    let model = model_in(alloc, specialising.lang, bytes);
    specialise_model(alloc, next, specialising, bytes.len(), model)
}
