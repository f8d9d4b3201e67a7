// Walks along words of a generator of random numbers.

ghost use Rattle.std.specs.Prelude.{◌≡◌, IfOk, IfErr, IsTrue, map};
ghost use Rattle.std.specs.List.{All};
ghost use Rattle.process_core.specs.Paths.{IsPath};
ghost use Rattle.process_core.specs.Steps.{Process};
ghost use Rattle.state_choices.specs.Grouped.{AreGroupsAt};
ghost use Rattle.state_choices.specs.Open.{open_choice};
ghost use Rattle.state_choices.specs.Views.{group_of};
ghost use Rattle.step_sim.specs.Paths.{moves};
ghost use Rattle.step_sim.specs.Walks.{HaveWholeChoices, IsDrawnStop, IsWhole};
ghost use Rattle.step_sim.specs.Words.{IsDrawnStep, IsSeededWalk, IsStepAmong, IsWalkOfSeed};

use crate::drawing::draw;
use crate::walk::{Step, Stop, Walk, last_state, step_along};
use bridge_io::List;
use process_core::{State, StepFail};
use rand_core::{Rng, SeedableRng};
use rand_pcg::Pcg64;
use state_choices::{Group, GroupedSteps, OpenChoice, OpenOutcome, open_choices};
use std::alloc::{AllocError, Global};

/// The walk of so many steps from an initial state along words. Each step that is begun takes two words, and a state
/// without choices ends the walk and takes none. `NoChoice` and `NoBranch` never come.
pub fn run_seeded<S: GroupedSteps, R: Rng>(
    alloc: Global,
    s: &S,
    start: State,
    words: &mut R,
    steps: u32,
) -> Result<Walk, AllocError>
    requires { IsTrue ((S.process s.now).is_initial start.values) }
    ensures walk { IfOk result (λ w. IsSeededWalk (S.process s.now) start.values steps (R.stream words.old) (R.stream words.new) w) }
    ensures stop { IfOk result (λ w. IsDrawnStop w.stop) }
    ensures path { IfOk result (λ w. IsPath (S.process s.now) start.values (moves w.steps)) }
{
    let mut taken = List::new(alloc);
    for _ in 0..steps {
        match step_drawn(alloc, s, last_state(&start, taken.as_slice()), words)? {
            Ok(step) => taken.push(step)?,
            Err(stop) => {
                return Ok(Walk {
                    first: start,
                    steps: taken,
                    stop,
                });
            }
        }
    }
    Ok(Walk {
        first: start,
        steps: taken,
        stop: Stop::Done,
    })
}

/// The step from a state along two words, which are taken only where the state has a choice.
fn step_drawn<S: GroupedSteps, R: Rng>(
    alloc: Global,
    s: &S,
    state: &State,
    words: &mut R,
) -> Result<Result<Step, Stop>, AllocError>
    requires { IsTrue ((S.process s.now).is_state state.now.values) }
    ensures step { IfOk result (λ r. IsDrawnStep (S.process s.now) state.now.values (R.stream words.old) (R.stream words.new) r) }
    ensures stop { IfOk result (λ r. IfErr r IsDrawnStop) }
{
    let evaluated = s.evaluated(alloc, state)?;
    drawn_of(alloc, s, state, &evaluated, words)
}

/// The same, from what commands or edges come out as in the state.
fn drawn_of<S: GroupedSteps, R: Rng>(
    alloc: Global,
    s: &S,
    state: &State,
    evaluated: &S::Evaluated,
    words: &mut R,
) -> Result<Result<Step, Stop>, AllocError>
    requires state { IsTrue ((S.process s.now).is_state state.now.values) }
    requires groups { AreGroupsAt (S.process s.now) state.now.values (S.groups_of s.now evaluated.now) }
    ensures step { IfOk result (λ r. IsDrawnStep (S.process s.now) state.now.values (R.stream words.old) (R.stream words.new) r) }
    ensures stop { IfOk result (λ r. IfErr r IsDrawnStop) }
{
    let groups = s.groups(alloc, evaluated)?;
    drawn_among(alloc, state, groups.as_slice(), words)
}

/// The same, from the groups of combinations that there are in the state.
fn drawn_among<R: Rng>(
    alloc: Global,
    state: &State,
    groups: &[Group],
    words: &mut R,
) -> Result<Result<Step, Stop>, AllocError>
    requires { HaveWholeChoices state.now.values (map group_of groups.now) }
    ensures step { (p : Process) → AreGroupsAt p state.now.values (map group_of groups.now)
        → IfOk result (λ r. IsDrawnStep p state.now.values (R.stream words.old) (R.stream words.new) r) }
    ensures stop { IfOk result (λ r. IfErr r IsDrawnStop) }
{
    match open_choices(alloc, groups) {
        Ok(choices) => drawn_from(alloc, state, choices.as_slice(), words),
        Err(StepFail::Memory(e)) => Err(e),
        Err(StepFail::Wide) => Ok(Err(Stop::Wide)),
        Err(StepFail::TooMany) => Ok(Err(Stop::TooMany)),
    }
}

/// The step along one of these choices.
fn drawn_from<R: Rng>(
    alloc: Global,
    state: &State,
    choices: &[OpenChoice],
    words: &mut R,
) -> Result<Result<Step, Stop>, AllocError>
    requires { All (λ c. IsWhole c.outcome) (map (open_choice state.now.values) choices.now) }
    ensures step { IfOk result (λ r. IsStepAmong (map (open_choice state.now.values) choices.now) (R.stream words.old) (R.stream words.new) r) }
    ensures stop { IfOk result (λ r. IfErr r IsDrawnStop) }
{
    let count = choices.len();
    if count == 0 {
        return Ok(Err(Stop::Deadlock));
    }
    let first = words.next_u64();
    let second = words.next_u64();
    let choice = &choices[(first % count as u64) as usize];
    let branches = match &choice.outcome {
        OpenOutcome::Good(branches) => branches.as_slice(),
        OpenOutcome::Faulty(bad) => return Ok(Err(Stop::Faulty(*bad))),
    };
    match draw(branches, second) {
        Ok(drawn) => Ok(Ok(step_along(alloc, state, choice, &branches[drawn])?)),
        Err(_) => Ok(Err(Stop::Wide)),
    }
}

/// The walk of so many steps from an initial state along the words of a seed. `NoChoice` and `NoBranch` never come.
pub fn run_seed<S: GroupedSteps>(
    alloc: Global,
    s: &S,
    start: State,
    seed: u64,
    steps: u32,
) -> Result<Walk, AllocError>
    requires { IsTrue ((S.process s.now).is_initial start.values) }
    ensures walk { IfOk result (λ w. IsWalkOfSeed (S.process s.now) start.values steps seed w) }
    ensures stop { IfOk result (λ w. IsDrawnStop w.stop) }
    ensures path { IfOk result (λ w. IsPath (S.process s.now) start.values (moves w.steps)) }
{
    let mut words = Pcg64::seed_from_u64(seed);
    run_seeded(alloc, s, start, &mut words, steps)
}
