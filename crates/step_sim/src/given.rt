// Walks along given numbers.

ghost use Rattle.std.specs.Prelude.{◌≡◌, IfOk, IsTrue, map, slice_get};
ghost use Rattle.process_core.specs.Paths.{IsPath};
ghost use Rattle.process_core.specs.Steps.{Process};
ghost use Rattle.state_choices.specs.Grouped.{AreGroupsAt};
ghost use Rattle.state_choices.specs.Open.{open_choice};
ghost use Rattle.state_choices.specs.Views.{group_of};
ghost use Rattle.step_sim.specs.Paths.{moves};
ghost use Rattle.step_sim.specs.Walks.{IsGivenStop, IsGivenWalk, by_choice, step_given};

use crate::walk::{Step, Stop, Walk, last_state, step_along};
use bridge_io::List;
use frac_core::Frac;
use process_core::{State, StepFail};
use state_choices::{Group, GroupedSteps, OpenChoice, OpenOutcome, open_choices};
use std::alloc::{AllocError, Global};

/// The walk from an initial state along pairs of numbers, of a choice and of its branch. `Deadlock` never comes.
pub fn run_given<S: GroupedSteps>(
    alloc: Global,
    s: &S,
    start: State,
    pairs: &List<(u32, u32)>,
) -> Result<Walk, AllocError>
    requires { IsTrue ((S.process s.now).is_initial start.values) }
    ensures starts { IfOk result (λ w. w.first ≡ start) }
    ensures walk { IfOk result (λ w. IsGivenWalk (S.process s.now) start.values pairs.now w.steps w.stop) }
    ensures stop { IfOk result (λ w. IsGivenStop w.stop) }
    ensures path { IfOk result (λ w. IsPath (S.process s.now) start.values (moves w.steps)) }
{
    let mut steps = List::new(alloc);
    for pair in pairs.as_slice() {
        match step_given(alloc, s, last_state(&start, steps.as_slice()), *pair)? {
            Ok(step) => steps.push(step)?,
            Err(stop) => return Ok(Walk {
                first: start,
                steps,
                stop,
            }),
        }
    }
    Ok(Walk {
        first: start,
        steps,
        stop: Stop::Done,
    })
}

/// The step from a state along the choice and the branch of these numbers.
fn step_given<S: GroupedSteps>(
    alloc: Global,
    s: &S,
    state: &State,
    pair: (u32, u32),
) -> Result<Result<Step, Stop>, AllocError>
    requires { IsTrue ((S.process s.now).is_state state.now.values) }
    ensures { IfOk result (λ r. r ≡ step_given (S.process s.now) state.now.values pair) }
{
    let evaluated = s.evaluated(alloc, state)?;
    step_of(alloc, s, state, &evaluated, pair)
}

/// The same, from what commands or edges come out as in the state.
fn step_of<S: GroupedSteps>(
    alloc: Global,
    s: &S,
    state: &State,
    evaluated: &S::Evaluated,
    pair: (u32, u32),
) -> Result<Result<Step, Stop>, AllocError>
    requires { AreGroupsAt (S.process s.now) state.now.values (S.groups_of s.now evaluated.now) }
    ensures { IfOk result (λ r. r ≡ step_given (S.process s.now) state.now.values pair) }
{
    let groups = s.groups(alloc, evaluated)?;
    step_among(alloc, state, groups.as_slice(), pair)
}

/// The same, from the groups of combinations that there are in the state.
fn step_among(
    alloc: Global,
    state: &State,
    groups: &[Group],
    pair: (u32, u32),
) -> Result<Result<Step, Stop>, AllocError>
    ensures { (p : Process) → AreGroupsAt p state.now.values (map group_of groups.now) → IfOk result (λ r. r ≡ step_given p state.now.values pair) }
{
    match open_choices(alloc, groups) {
        Ok(choices) => step_from(alloc, state, &choices, pair),
        Err(StepFail::Memory(e)) => Err(e),
        Err(StepFail::Wide) => Ok(Err(Stop::Wide)),
        Err(StepFail::TooMany) => Ok(Err(Stop::TooMany)),
    }
}

/// The step along one of these choices.
fn step_from(
    alloc: Global,
    state: &State,
    choices: &List<OpenChoice>,
    pair: (u32, u32),
) -> Result<Result<Step, Stop>, AllocError>
    ensures { IfOk result (λ r. r ≡ by_choice pair.0 pair.1 (slice_get (map (open_choice state.now.values) choices.now) pair.0)) }
{
    let Some(choice) = choices.get(pair.0 as usize) else {
        return Ok(Err(Stop::NoChoice(pair.0)));
    };
    let branches = match &choice.outcome {
        OpenOutcome::Good(branches) => branches,
        OpenOutcome::Faulty(bad) => return Ok(Err(Stop::Faulty(*bad))),
    };
    match branches.get(pair.1 as usize) {
        Some(branch) if branch.weight != Frac::zero() => {
            Ok(Ok(step_along(alloc, state, choice, branch)?))
        }
        _ => Ok(Err(Stop::NoBranch(pair.1))),
    }
}
