// Whatever can be stepped.

ghost use Rattle.std.specs.Prelude.{◌≡◌, ◌<◌, Some, Ok, Err, IfOk, IsTrue, length, map, slice_get, if◌then◌else◌};
ghost use Rattle.std.specs.Option.{option_map};
ghost use Rattle.process_core.specs.Answers.{Answers, only_wide};
ghost use Rattle.process_core.specs.Seen.{seen_choice};
ghost use Rattle.process_core.specs.Steps.{IsProcess, Process, values_of};

use crate::data::{Choice, Mark, State, StepFail};
use bridge_io::{List, Text};
use std::alloc::{AllocError, Global};

/// The test of whether a state is initial has a value that passes the bound of fractions.
#[derive(Clone, Copy, PartialEq, Eq)]
pub struct InitialWide;

/// A process that can be stepped, a model under given constants. `process` says what it is over unbounded numbers, and
/// the calls answer by it. Its laws: a state has a value for each column and a mark for each name, labels first; initial
/// states are states, and the initial test is wide of states alone; there is a first state exactly where the model has no
/// initial condition, and it is the only initial one and narrow; in each good choice of a state every target is a state, no
/// probability is negative, and the probabilities add up to 1.
pub trait Steps {
    ghost process: { Self → Process };

    /// How many columns a state has.
    fn columns(&self) -> usize
        ensures { result ≡ length (process self.now).columns };

    /// The text of a column.
    fn column_text(&self, alloc: Global, i: usize) -> Result<Text, AllocError>
        requires { i < length (process self.now).columns }
        ensures { IfOk result (λ text. slice_get (process self.now).columns i ≡ Some text) };

    /// Whether this is a state.
    fn valid(&self, s: &State) -> bool
        ensures { result ≡ (process self.now).is_state s.now.values };

    /// Whether this is an initial state, or that the test of it is wide; `InitialWide` only where this is a state.
    fn initial(&self, s: &State) -> Result<bool, InitialWide>
        ensures { result ≡ (if (process self.now).has_wide_initial s.now.values then Err (record {}) else Ok ((process self.now).is_initial s.now.values)) };

    /// The one initial state: `None` exactly where the model has an initial condition.
    fn first(&self, alloc: Global) -> Result<Option<State>, AllocError>
        ensures { IfOk result (λ s. option_map values_of s ≡ (process self.now).first) };

    /// The choices of a state, in order: `Wide` or `TooMany` exactly where one of them passes a bound.
    fn choices(&self, alloc: Global, s: &State) -> Result<List<Choice>, StepFail>
        requires { IsTrue ((process self.now).is_state s.now.values) }
        ensures { Answers ((process self.now).excess s.now.values) (λ cs. map seen_choice cs ≡ (process self.now).choices s.now.values) result };

    /// How many marks a state has.
    fn mark_count(&self) -> usize
        ensures { result ≡ length (process self.now).mark_names };

    /// How many of them are labels. These come first; the others are rewards.
    fn label_count(&self) -> usize
        ensures { result ≡ (process self.now).labels };

    /// The name of a mark.
    fn mark_name(&self, alloc: Global, i: usize) -> Result<Text, AllocError>
        requires { i < length (process self.now).mark_names }
        ensures { IfOk result (λ name. slice_get (process self.now).mark_names i ≡ Some name) };

    /// The marks of a state, in order: `Wide` exactly where one of them passes the bound; never `TooMany`.
    fn marks(&self, alloc: Global, s: &State) -> Result<List<Mark>, StepFail>
        requires { IsTrue ((process self.now).is_state s.now.values) }
        ensures { Answers (only_wide ((process self.now).has_wide_mark s.now.values)) (λ ms. ms ≡ (process self.now).marks s.now.values) result };

    ghost lawful: { (p : Self) → IsProcess (process p) };
}
