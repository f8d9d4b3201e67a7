// The jobs: one state shown, and walks.

ghost use Rattle.std.specs.Prelude.{◌≡◌, [], IfOk, option_copied};
ghost use Rattle.walk_texts.specs.Stops.{stop_line};
ghost use Rattle.walk_texts.specs.Jobs.{IsShown, IsWalkedAlong, IsWalkedBySeed};

use crate::path::{report_of, stop_line};
use crate::report::Report;
use crate::start::{Start, start_of, state_of};
use crate::state::show_text;
use bridge_io::List;
use process_core::{StepFail, Steps};
use state_choices::GroupedSteps;
use std::alloc::{AllocError, Global};
use step_sim::{Stop, run_given, run_seed};

/// Shows the state that a word is: its marks and its choices.
pub fn show<S: Steps>(alloc: Global, s: &S, state: &str) -> Result<Report, AllocError>
    ensures { IfOk result (IsShown (S.process s.now) state.now) }
{
    let Some(state) = state_of(alloc, s, state)? else {
        return Ok(Report::NoStart);
    };
    match show_text(alloc, s, &state) {
        Ok(text) => Ok(Report::Done(text)),
        Err(StepFail::Memory(e)) => Err(e),
        Err(StepFail::Wide) => at_once(alloc, Stop::Wide),
        Err(StepFail::TooMany) => at_once(alloc, Stop::TooMany),
    }
}

/// Nothing is written, since something passes a bound before the first step.
fn at_once(alloc: Global, stop: Stop) -> Result<Report, AllocError>
    ensures { IfOk result (λ r. r ≡ Report.Excess [] (stop_line 0 stop)) }
{
    let line = stop_line(alloc, 0, stop)?;
    Ok(Report::Excess(List::new(alloc), line))
}

/// Walks from the named state, or from the first one, along pairs of numbers.
pub fn simulate_given<S: GroupedSteps>(
    alloc: Global,
    s: &S,
    from: Option<&str>,
    pairs: &List<(u32, u32)>,
) -> Result<Report, AllocError>
    ensures { IfOk result (IsWalkedAlong (S.process s.now) (option_copied from.entry) pairs.now) }
{
    match start_of(alloc, s, from)? {
        Start::At(state) => {
            let walk = run_given(alloc, s, state, pairs)?;
            report_of(alloc, s, &walk)
        }
        Start::Nowhere => Ok(Report::NoStart),
        Start::Wide => at_once(alloc, Stop::Wide),
    }
}

/// Walks from the named state, or from the first one, along the words of a seed.
pub fn simulate_seed<S: GroupedSteps>(
    alloc: Global,
    s: &S,
    from: Option<&str>,
    seed: u64,
    steps: u32,
) -> Result<Report, AllocError>
    ensures { IfOk result (IsWalkedBySeed (S.process s.now) (option_copied from.entry) seed steps) }
{
    match start_of(alloc, s, from)? {
        Start::At(state) => {
            let walk = run_seed(alloc, s, state, seed, steps)?;
            report_of(alloc, s, &walk)
        }
        Start::Nowhere => Ok(Report::NoStart),
        Start::Wide => at_once(alloc, Stop::Wide),
    }
}
