//! One state of a model, and walks through it.
ghost use Rattle.std.specs.Prelude.{◌≡◌, ℕ, List, IfOk};
ghost use Rattle.jani_tree.specs.Syntax as jani;
ghost use Rattle.command_words.specs.Words.{job_of, walking_of, words_before};
ghost use Rattle.command_words.specs.declared.request.Lang.TheVariants.{Prism, Jani};
ghost use Rattle.model_files.specs.PrismFile.{IsReadPrism};
ghost use Rattle.model_files.specs.JaniFile.{IsReadJani};
ghost use Rattle.instance_start.specs.Description.{Description};
ghost use Rattle.prism_instance.specs.Described.{prism_description};
ghost use Rattle.jani_instance.specs.Described.{jani_description};
ghost use Rattle.walk_texts.specs.declared.report.Report.{Report};
ghost use Rattle.model_process.specs.ReadModels.{IsRead};
ghost use Rattle.model_process.specs.Starts.{Begins, IsBehind};
ghost use Rattle.model_process.specs.Walks.{EndsOnModel, IsReport, WalksOn, ending_of, start_word};

use crate::ending::Ending;
use crate::starting::{Unstarted, begun, good_front, read_flat};
use bridge_io::Refused;
use command_words::{Job, Walking};
use jani_check::CheckedJani;
use jani_instance::start_jani;
use model_files::ReadModel;
use prism_check::{CheckedPrism, FlatPrism};
use prism_instance::{described_law, start_prism};
use state_choices::GroupedSteps;
use std::alloc::{AllocError, Global};
use walk_texts::{Report, show, simulate_given, simulate_seed};

/// Shows a state of a model, or walks through it. `model` is what reading its file came to. `next` is the position behind the words that ask
/// for it. `Err` is the least fault of the file, or want of memory.
pub fn show_or_walk(
    alloc: Global,
    next: usize,
    walking: &Walking,
    model: ReadModel,
) -> Result<Ending, Refused>
    requires { IsBehind (words_before (walking_of walking.now)) (walking_of walking.now).given next }
    ensures { (bytes : List ℕ) → IsRead (walking_of walking.now).lang bytes model → WalksOn (walking_of walking.now).lang (walking_of walking.now) bytes result }
{
    match model {
        ReadModel::Prism(model) => in_prism(alloc, next, walking, model),
        ReadModel::Jani(model) => in_jani(alloc, next, walking, model),
    }
}

/// The same for a PRISM file.
fn in_prism(
    alloc: Global,
    next: usize,
    walking: &Walking,
    model: Result<CheckedPrism, Refused>,
) -> Result<Ending, Refused>
    requires { IsBehind (words_before (walking_of walking.now)) (walking_of walking.now).given next }
    ensures { (bytes : List ℕ) → IsReadPrism bytes model → WalksOn Prism (walking_of walking.now) bytes result }
{
    let flat = match read_flat(alloc, model) {
        Ok(flat) => flat,
        Err(refused) => return Err(refused),
    };
    described_law();
    let ending = on_prism(alloc, next, walking, &flat)?;
    Ok(ending)
}

/// How it ends on a PRISM file that is written out. `Err` is want of memory.
fn on_prism(
    alloc: Global,
    next: usize,
    walking: &Walking,
    flat: &FlatPrism,
) -> Result<Ending, AllocError>
    requires { IsBehind (words_before (walking_of walking.now)) (walking_of walking.now).given next }
    ensures { IfOk result (EndsOnModel (prism_description flat.now) (walking_of walking.now)) }
{
    let values = walking.given.as_slice();
    let given = good_front(alloc, values)?;
    let started = start_prism(alloc, flat, given.as_slice());
    let begun = begun(alloc, next, values, given.len(), started);
    ended(alloc, walking, begun)
}

/// The same for a JANI file.
fn in_jani(
    alloc: Global,
    next: usize,
    walking: &Walking,
    model: Result<CheckedJani, Refused>,
) -> Result<Ending, Refused>
    requires { IsBehind (words_before (walking_of walking.now)) (walking_of walking.now).given next }
    ensures { (bytes : List ℕ) → IsReadJani bytes model → WalksOn Jani (walking_of walking.now) bytes result }
{
    let checked = match model {
        Ok(checked) => checked,
        Err(refused) => return Err(refused),
    };
    let ending = on_jani(alloc, next, walking, &checked)?;
    Ok(ending)
}

/// How it ends on a judged JANI file. `Err` is want of memory.
fn on_jani(
    alloc: Global,
    next: usize,
    walking: &Walking,
    checked: &CheckedJani,
) -> Result<Ending, AllocError>
    requires { IsBehind (words_before (walking_of walking.now)) (walking_of walking.now).given next }
    ensures { IfOk result (EndsOnModel (jani_description (jani.file_of checked.now)) (walking_of walking.now)) }
{
    let values = walking.given.as_slice();
    let given = good_front(alloc, values)?;
    let started = start_jani(alloc, checked, given.as_slice());
    let begun = begun(alloc, next, values, given.len(), started);
    ended(alloc, walking, begun)
}

/// How it ends with a model that is started, or isn't.
fn ended<S: GroupedSteps + Drop>(
    alloc: Global,
    walking: &Walking,
    begun: Result<S, Unstarted>,
) -> Result<Ending, AllocError>
    ensures { (d : Description) → Begins S.process d (words_before (walking_of walking.now)) (walking_of walking.now).given begun → IfOk result (EndsOnModel d (walking_of walking.now)) }
{
    match begun {
        Ok(process) => shown(alloc, walking, &process),
        Err(Unstarted::Ended(ending)) => Ok(ending),
        Err(Unstarted::Memory(e)) => Err(e),
    }
}

/// How it ends with a process: what is shown of it.
fn shown<S: GroupedSteps>(
    alloc: Global,
    walking: &Walking,
    process: &S,
) -> Result<Ending, AllocError>
    ensures { IfOk result (λ o. (r : Report) × IsReport (S.process process.now) (walking_of walking.now).job r × (o ≡ ending_of (walking_of walking.now).job r)) }
{
    let report = report_of(alloc, &walking.job, process)?;
    Ok(ending_of(&walking.job, report))
}

fn report_of<S: GroupedSteps>(alloc: Global, job: &Job, process: &S) -> Result<Report, AllocError>
    ensures { IfOk result (IsReport (S.process process.now) (job_of job.now)) }
{
    match job {
        Job::Show(state) => show(alloc, process, state),
        Job::Given(from, pairs) => simulate_given(alloc, process, *from, pairs),
        Job::Seed(from, seed, steps) => simulate_seed(alloc, process, *from, *seed, *steps),
    }
}

fn ending_of(job: &Job, report: Report) -> Ending
    ensures { result ≡ ending_of (job_of job.now) report }
{
    match report {
        Report::Done(text) => Ending::Done(text),
        Report::Stopped(text, line) => Ending::Stopped(text, line),
        Report::NoStart => Ending::Word(start_word(job)),
        Report::Excess(text, line) => Ending::Excess(text, line),
    }
}

/// The position of the word of the state that is shown or that a walk starts at; the walk's own word where no start is named.
fn start_word(job: &Job) -> usize
    ensures { result ≡ start_word (job_of job.now) }
{
    match job {
        Job::Given(Some(_), _) => 5,
        Job::Seed(Some(_), _, _) => 5,
        _ => 4,
    }
}
