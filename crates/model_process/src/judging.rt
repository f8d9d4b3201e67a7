//! Claims judged.
ghost use Rattle.std.specs.Prelude.{◌≡◌, ◌∷◌, ◌<◌, ℕ, List, Some, length};
ghost use Rattle.value_bound.specs.Labels.{label_named};
ghost use Rattle.jani_tree.specs.Syntax as jani;
ghost use Rattle.command_words.specs.Words.{of_bounds, checking_of, claim_files, claim_of, words_before_given};
ghost use Rattle.command_words.specs.declared.request.Lang.TheVariants.{Prism, Jani};
ghost use Rattle.model_files.specs.PrismFile.{IsReadPrism};
ghost use Rattle.model_files.specs.JaniFile.{IsReadJani};
ghost use Rattle.instance_start.specs.Description.{Description};
ghost use Rattle.prism_instance.specs.Described.{prism_description};
ghost use Rattle.jani_instance.specs.Described.{jani_description};
ghost use Rattle.model_process.specs.Starts.{Begins, IsBehind};
ghost use Rattle.model_process.specs.ReadModels.{IsRead};
ghost use Rattle.model_process.specs.Claims.{JudgesOn, JudgesOnModel, JudgesOnProcess, Tells, at_file};

use crate::ending::Ending;
use crate::finding::Finding;
use crate::lines::verdict_ending;
use crate::starting::{Unstarted, begun, good_front, read_flat};
use bridge_io::{Fault, List, Refused};
use command_words::{Checking, Claim};
use jani_check::CheckedJani;
use jani_instance::start_jani;
use model_files::ReadModel;
use prism_check::{CheckedPrism, FlatPrism};
use prism_instance::{described_law, start_prism};
use row_check::{RowsRefused, check_path, check_rows};
use state_choices::GroupedSteps;
use std::alloc::{AllocError, Global};
use value_bound::{BoundRefused, check_bound, label_named};

/// Why there is no verdict on a claim.
#[derive(Drop)]
pub enum ClaimRefused {
    /// Want of memory.
    Memory(AllocError),
    /// The file of this place among the files, from 0 for the model's, is refused at this fault.
    At(usize, Fault),
}

impl From<AllocError> for ClaimRefused {
    ghost use Rattle.model_process.specs.declared.judging.ClaimRefused.TheVariants.{Memory};

    ghost from_gives = { λ e r. r ≡ Memory e };

    fn from(e: AllocError) -> ClaimRefused {
        ClaimRefused::Memory(e)
    }
}

/// Judges the claim about a model that the other files make. `model` is what reading its file came to. `next` is the position behind the
/// words that ask for it. `Err` is the least fault of the model's file; or the first line that breaks the form of another, where the model
/// starts; or want of memory. Files are told by their places among all, from 0 for the model's.
pub fn judge_claim(
    alloc: Global,
    next: usize,
    checking: &Checking,
    model: ReadModel,
    others: &[List<u8>],
) -> Result<Ending, ClaimRefused>
    requires behind { IsBehind (words_before_given (checking_of checking.now)) (checking_of checking.now).given next }
    requires others { length others.now ≡ length (claim_files (checking_of checking.now).claim) }
    ensures { (bytes : List ℕ) → IsRead (checking_of checking.now).lang bytes model → JudgesOn (checking_of checking.now) (bytes ∷ others.now) result }
{
    match model {
        ReadModel::Prism(model) => in_prism(alloc, next, checking, model, others),
        ReadModel::Jani(model) => in_jani(alloc, next, checking, model, others),
    }
}

/// The same of a PRISM file.
fn in_prism(
    alloc: Global,
    next: usize,
    checking: &Checking,
    model: Result<CheckedPrism, Refused>,
    others: &[List<u8>],
) -> Result<Ending, ClaimRefused>
    requires behind { IsBehind (words_before_given (checking_of checking.now)) (checking_of checking.now).given next }
    requires others { length others.now ≡ length (claim_files (checking_of checking.now).claim) }
    ensures { (bytes : List ℕ) → IsReadPrism bytes model → (checking_of checking.now).lang ≡ Prism → JudgesOn (checking_of checking.now) (bytes ∷ others.now) result }
{
    let flat = match read_flat(alloc, model) {
        Ok(flat) => flat,
        Err(refused) => return Err(at_file(0, refused)),
    };
    described_law();
    on_prism(alloc, next, checking, others, &flat)
}

/// The same of a PRISM file that is written out.
fn on_prism(
    alloc: Global,
    next: usize,
    checking: &Checking,
    others: &[List<u8>],
    flat: &FlatPrism,
) -> Result<Ending, ClaimRefused>
    requires behind { IsBehind (words_before_given (checking_of checking.now)) (checking_of checking.now).given next }
    requires others { length others.now ≡ length (claim_files (checking_of checking.now).claim) }
    ensures { (files : List (List ℕ)) → others.now ≡ files
        → JudgesOnModel (prism_description flat.now) (checking_of checking.now) files result }
{
    let values = checking.given.as_slice();
    let given = good_front(alloc, values)?;
    let started = start_prism(alloc, flat, given.as_slice());
    let begun = begun(alloc, next, values, given.len(), started);
    ended(alloc, checking, others, begun)
}

/// The same of a JANI file.
fn in_jani(
    alloc: Global,
    next: usize,
    checking: &Checking,
    model: Result<CheckedJani, Refused>,
    others: &[List<u8>],
) -> Result<Ending, ClaimRefused>
    requires behind { IsBehind (words_before_given (checking_of checking.now)) (checking_of checking.now).given next }
    requires others { length others.now ≡ length (claim_files (checking_of checking.now).claim) }
    ensures { (bytes : List ℕ) → IsReadJani bytes model → (checking_of checking.now).lang ≡ Jani → JudgesOn (checking_of checking.now) (bytes ∷ others.now) result }
{
    let checked = match model {
        Ok(checked) => checked,
        Err(refused) => return Err(at_file(0, refused)),
    };
    on_jani(alloc, next, checking, others, &checked)
}

/// The same of a judged JANI file.
fn on_jani(
    alloc: Global,
    next: usize,
    checking: &Checking,
    others: &[List<u8>],
    checked: &CheckedJani,
) -> Result<Ending, ClaimRefused>
    requires behind { IsBehind (words_before_given (checking_of checking.now)) (checking_of checking.now).given next }
    requires others { length others.now ≡ length (claim_files (checking_of checking.now).claim) }
    ensures { (files : List (List ℕ)) → others.now ≡ files
        → JudgesOnModel (jani_description (jani.file_of checked.now)) (checking_of checking.now) files result }
{
    let values = checking.given.as_slice();
    let given = good_front(alloc, values)?;
    let started = start_jani(alloc, checked, given.as_slice());
    let begun = begun(alloc, next, values, given.len(), started);
    ended(alloc, checking, others, begun)
}

/// How it ends with a model that is started, or isn't.
fn ended<S: GroupedSteps + Drop>(
    alloc: Global,
    checking: &Checking,
    others: &[List<u8>],
    begun: Result<S, Unstarted>,
) -> Result<Ending, ClaimRefused>
    requires { length others.now ≡ length (claim_files (checking_of checking.now).claim) }
    ensures { (d : Description) (files : List (List ℕ)) → others.now ≡ files
        → Begins S.process d (words_before_given (checking_of checking.now)) (checking_of checking.now).given begun
        → JudgesOnModel d (checking_of checking.now) files result }
{
    match begun {
        Ok(process) => judged(alloc, checking.claim, others, &process),
        Err(Unstarted::Ended(ending)) => Ok(ending),
        Err(Unstarted::Memory(e)) => Err(ClaimRefused::Memory(e)),
    }
}

/// How it ends with a process: the verdict.
fn judged<S: GroupedSteps>(
    alloc: Global,
    claim: Claim,
    others: &[List<u8>],
    process: &S,
) -> Result<Ending, ClaimRefused>
    requires { length others.now ≡ length (claim_files (claim_of claim)) }
    ensures { (files : List (List ℕ)) → others.now ≡ files
        → JudgesOnProcess (S.process process.now) (claim_of claim.entry) files result }
{
    let finding = match verdict_on(alloc, claim, others, process) {
        Ok(finding) => finding,
        Err(refused) => return Err(refused),
    };
    let ending = verdict_ending(alloc, claim, finding)?;
    Ok(ending)
}

/// The verdict on what the other files hold of the process.
fn verdict_on<S: GroupedSteps>(
    alloc: Global,
    claim: Claim,
    others: &[List<u8>],
    process: &S,
) -> Result<Finding, ClaimRefused>
    requires { length others.now ≡ length (claim_files (claim_of claim)) }
    ensures { (files : List (List ℕ)) → others.now ≡ files
        → Tells (S.process process.now) (claim_of claim.entry) files result }
{
    match claim {
        Claim::Path(_) => match check_path(alloc, process, others[0].as_slice()) {
            Ok(verdict) => Ok(Finding::Judged(verdict)),
            Err(refused) => Err(at_file(1, refused)),
        },
        Claim::Rows(_, _) => {
            match check_rows(alloc, process, others[0].as_slice(), others[1].as_slice()) {
                Ok(verdict) => Ok(Finding::Judged(verdict)),
                Err(RowsRefused::States(fault)) => Err(ClaimRefused::At(1, fault)),
                Err(RowsRefused::Rows(fault)) => Err(ClaimRefused::At(2, fault)),
                Err(RowsRefused::Memory(e)) => Err(ClaimRefused::Memory(e)),
            }
        }
        Claim::Bounds(_, _, name, _) => {
            let label = label_named(alloc, process, name)?;
            match label {
                Some(label) => bounds_on(alloc, label, others, process),
                None => Ok(Finding::NoLabel),
            }
        }
    }
}

/// The verdict on the bounds that the last of the files has for the label of this number.
fn bounds_on<S: GroupedSteps>(
    alloc: Global,
    label: usize,
    others: &[List<u8>],
    process: &S,
) -> Result<Finding, ClaimRefused>
    requires others { length others.now ≡ 3 }
    requires label { label < (S.process process.now).labels }
    ensures { (states rows name bounds : List ℕ) → (files : List (List ℕ)) → others.now ≡ files
        → label_named (S.process process.now) name ≡ Some label → Tells (S.process process.now) (of_bounds states rows name bounds) files result }
{
    match check_bound(
        alloc,
        process,
        others[0].as_slice(),
        others[1].as_slice(),
        label,
        others[2].as_slice(),
    ) {
        Ok(verdict) => Ok(Finding::Bounds(verdict)),
        Err(BoundRefused::States(fault)) => Err(ClaimRefused::At(1, fault)),
        Err(BoundRefused::Rows(fault)) => Err(ClaimRefused::At(2, fault)),
        Err(BoundRefused::Bounds(fault)) => Err(ClaimRefused::At(3, fault)),
        Err(BoundRefused::Memory(e)) => Err(ClaimRefused::Memory(e)),
    }
}

/// A fault told of the file of this place.
pub fn at_file(i: usize, refused: Refused) -> ClaimRefused
    ensures { result ≡ at_file i refused }
{
    match refused {
        Refused::Memory(e) => ClaimRefused::Memory(e),
        Refused::At(fault) => ClaimRefused::At(i, fault),
    }
}
