//! A model of a file, started under given constants, or how it ends before that.
ghost use Rattle.std.specs.Prelude.{◌≡◌, ◌+◌, ◌-◌, ◌<◌, ◌≤◌, ◌^◌, ℕ, List, [], length, IfOk, IfErr, map};
ghost use Rattle.prism_print.specs.Same.{bare_file};
ghost use Rattle.prism_names.specs.Flat.{flat};
ghost use Rattle.prism_tree.specs.Syntax as prism;
ghost use Rattle.command_words.specs.Given.{assignment_of};
ghost use Rattle.instance_start.specs.Started.{FailsToStart, Starts};
ghost use Rattle.instance_start.specs.Description.{Description};
ghost use Rattle.model_files.specs.PrismFile.{IsFaultless, IsReadPrism, RefusesPrism};
ghost use Rattle.model_process.specs.Constants.{good_front};
ghost use Rattle.model_process.specs.Starts.{Begins, EndsUnstarted, IsBehind, wide_instance_line};
ghost use Rattle.model_process.specs.declared.ending.Ending.TheVariants.{Excess, Word};

use crate::ending::Ending;
use bridge_io::{List, Refused, Text};
use command_words::Assignment;
use op_trees::Value;
use prism_check::{CheckedPrism, FlatPrism, flatten};
use process_core::{Given, StartFail, Steps};
use process_texts::GivenText;
use std::alloc::{AllocError, Global};
use walk_texts::fault_lines;

/// The PRISM file that was read, with its formulas and copies written out, if it has no fault, or its least fault. `model` is what reading it
/// came to.
pub fn read_flat(alloc: Global, model: Result<CheckedPrism, Refused>) -> Result<FlatPrism, Refused>
    ensures ok { (bytes : List ℕ) → IsReadPrism bytes model → IfOk result (λ f. (tree : prism.File) × IsFaultless bytes tree × (bare_file f ≡ bare_file (flat tree))) }
    ensures refused { (bytes : List ℕ) → IsReadPrism bytes model → IfErr result (RefusesPrism bytes) }
{
    let checked = match model {
        Ok(checked) => checked,
        Err(refused) => return Err(refused),
    };
    let flat = flatten(alloc, &checked)?;
    Ok(flat)
}

/// The values that are given before the first one that is past the bound. `Err` is want of memory.
pub fn good_front(alloc: Global, given: &[Assignment]) -> Result<List<Given>, AllocError>
    ensures { IfOk result (λ gs. gs ≡ good_front (map assignment_of given.now)) }
{
    let mut front = List::new(alloc);
    for one in given {
        match one.value {
            GivenText::Good(value) => front.push(named(alloc, one.name, value)?)?,
            _ => return Ok(front),
        }
    }
    Ok(front)
}

fn named(alloc: Global, name: &str, value: Value) -> Result<Given, AllocError>
    ensures { IfOk result (λ g. g ≡ record { name = name.now; value = value }) }
{
    let name = Text::copy_of(alloc, name)?;
    Ok(Given { name, value })
}

/// Why a model isn't started.
#[derive(Drop)]
pub enum Unstarted {
    /// Want of memory.
    Memory(AllocError),
    /// A value doesn't fit, something in the instance passes the bound, or it has faults: it ends so.
    Ended(Ending),
}

/// The process of a model that was to be started under the values that the words give, and was under so many of them, those before
/// the first one that is past the bound. `next` is the position behind these words.
pub fn begun<S: Steps + Drop>(
    alloc: Global,
    next: usize,
    given: &[Assignment],
    front: usize,
    started: Result<S, StartFail>,
) -> Result<S, Unstarted>
    requires behind { length given.now < next }
    requires front { front ≡ length (good_front (map assignment_of given.now)) }
    ensures { (d : Description) (before : ℕ) → IsBehind before (map assignment_of given.now) next
        → Starts S.process d (good_front (map assignment_of given.now)) started → Begins S.process d before (map assignment_of given.now) result }
{
    let all = given.len();
    match started {
        Ok(instance) => {
            if front < all {
                return Err(Unstarted::Ended(wrong_value(next, all, front)));
            }
            Ok(instance)
        }
        Err(fail) => match ending_of_fail(alloc, next, all, front, fail) {
            Ok(ending) => Err(Unstarted::Ended(ending)),
            Err(e) => Err(Unstarted::Memory(e)),
        },
    }
}

/// How it ends with a model that isn't started under so many of all values.
fn ending_of_fail(
    alloc: Global,
    next: usize,
    all: usize,
    front: usize,
    fail: StartFail,
) -> Result<Ending, AllocError>
    requires { all < next }
    ensures { (d : Description) (before : ℕ) (given : List _) → all ≡ length given → front ≡ length (good_front given) → IsBehind before given next
        → FailsToStart d (good_front given) fail → IfOk result (EndsUnstarted d before given) }
{
    match fail {
        StartFail::Memory(e) => Err(e),
        StartFail::Word(i) => Ok(wrong_value(next, all, i)),
        StartFail::Wide => {
            if front < all {
                return Ok(wrong_value(next, all, front));
            }
            wide_instance(alloc)
        }
        StartFail::Faults(faults) => {
            if front < all {
                return Ok(wrong_value(next, all, front));
            }
            Ok(Ending::Faulty(fault_lines(alloc, faults.as_slice())?))
        }
    }
}

/// How it ends where something in an instance is wide. `Err` is want of memory.
pub fn wide_instance(alloc: Global) -> Result<Ending, AllocError>
    ensures { IfOk result (λ o. o ≡ Excess [] wide_instance_line) }
{
    let line = Text::copy_of(alloc, "bridge: wide at instance\n")?;
    Ok(Ending::Excess(List::new(alloc), line))
}

/// How it ends where a value is wrong: with the position of its word, of words the last so many of which give values. `next` is the position behind
/// these words.
pub fn wrong_value(next: usize, all: usize, i: usize) -> Ending
    requires { all ≤ next }
    ensures { (next - all) + i < 2 ^ 64 → result ≡ Word ((next - all) + i) }
{
    Ending::Word((next - all).saturating_add(i))
}
