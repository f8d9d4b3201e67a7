//! A model and its counterpart started.
ghost use Rattle.std.specs.Prelude.{◌≡◌, IfOk, Ok};
ghost use Rattle.instance_start.specs.Description.{Description};
ghost use Rattle.command_words.specs.Words.{Carrying};
ghost use Rattle.model_process.specs.Starts.{Begins};
ghost use Rattle.model_carrying.specs.Counterparts.{Counterpart};
ghost use Rattle.model_carrying.specs.Pairs.{ArePaired, BeginsBoth, EndsWide, FailsBehind, StartsThere, WideUnlessFaulty, WideUnlessMemory};

use bridge_io::List;
use model_process::{Ending, Unstarted, wide_instance};
use process_core::{StartFail, Steps};
use std::alloc::Global;

/// The process of a model and that of its counterpart, or how it ends before both are started: as it ends where the model isn't
/// started, but where only something in the counterpart is wide, so, also before the model's faults.
pub(crate) fn both<S: Steps + Drop, T: Steps + Drop>(
    alloc: Global,
    here: Result<S, Unstarted>,
    there: Result<T, StartFail>,
) -> Result<(S, T), Unstarted>
    ensures begins { (d : Description) (o : Counterpart) (c : Carrying) → ArePaired d o c.given → Begins S.process d 4 c.given here
        → StartsThere T.process d o c.given there → BeginsBoth S.process T.process d o c result }
    ensures from { IfOk result (λ p. (here ≡ Ok p.0) × (there ≡ Ok p.1)) }
{
    match here {
        Ok(here) => match there {
            Ok(there) => Ok((here, there)),
            Err(fail) => Err(not_there(alloc, fail)),
        },
        Err(Unstarted::Ended(ending)) => Err(not_here(alloc, ending, there)),
        Err(Unstarted::Memory(e)) => Err(Unstarted::Memory(e)),
    }
}

/// How it ends where only the counterpart isn't started: something in it is wide, unless memory ran out, since what fits the model fits it,
/// and it has no fault where the model has none.
fn not_there(alloc: Global, fail: StartFail) -> Unstarted
    ensures { WideUnlessMemory fail result }
{
    match fail {
        StartFail::Memory(e) => Unstarted::Memory(e),
        StartFail::Wide | StartFail::Word(_) | StartFail::Faults(_) => wide(alloc),
    }
}

/// How it ends where the model isn't started: so, but that something wide in the counterpart comes before faults.
fn not_here<T: Steps + Drop>(
    alloc: Global,
    ending: Ending,
    there: Result<T, StartFail>,
) -> Unstarted
    ensures { FailsBehind ending there result }
{
    match ending {
        Ending::Faulty(lines) => faulty(alloc, lines, there),
        ending => Unstarted::Ended(ending),
    }
}

/// The same where these lines tell the model's faults.
fn faulty<T: Steps + Drop>(alloc: Global, lines: List<u8>, there: Result<T, StartFail>) -> Unstarted
    ensures { WideUnlessFaulty lines there result }
{
    match there {
        Err(StartFail::Memory(e)) => Unstarted::Memory(e),
        Err(StartFail::Wide) => wide(alloc),
        Err(StartFail::Word(_)) | Err(StartFail::Faults(_)) | Ok(_) => {
            Unstarted::Ended(Ending::Faulty(lines))
        }
    }
}

/// Something in an instance is wide.
fn wide(alloc: Global) -> Unstarted
    ensures { EndsWide result }
{
    match wide_instance(alloc) {
        Ok(ending) => Unstarted::Ended(ending),
        Err(e) => Unstarted::Memory(e),
    }
}
