// What a walk is made of.

ghost use Rattle.std.specs.Prelude.{◌≡◌, IfOk, option_copied};
ghost use Rattle.state_choices.specs.Open.{open_target};
ghost use Rattle.step_sim.specs.Walks.{state_after};

use bridge_io::{List, Text};
use process_core::{Bad, State, copy_label};
use state_choices::{OpenBranch, OpenChoice};
use std::alloc::{AllocError, Global};

/// Why a walk goes no further.
#[derive(Clone, Copy, PartialEq, Eq)]
pub enum Stop {
    /// All pairs or steps are taken.
    Done,
    /// The state has no choice.
    Deadlock,
    /// There is no choice of this number.
    NoChoice(u32),
    /// The choice has no branch of this number, or one of probability 0.
    NoBranch(u32),
    /// The choice has no distribution.
    Faulty(Bad),
    /// A value that is needed passes the bound of fractions.
    Wide,
    /// The state has more choices or branches than are given of a state.
    TooMany,
}

/// A step: the label of the choice, and the state that the branch leads to.
#[derive(Drop)]
pub struct Step {
    pub label: Option<Text>,
    pub target: State,
}

/// A walk: the state that it starts at, its steps, and why it stops after them.
#[derive(Drop)]
pub struct Walk {
    pub first: State,
    pub steps: List<Step>,
    pub stop: Stop,
}

/// The state that a walk has come to.
pub(crate) fn last_state<'a>(first: &'a State, steps: &'a [Step]) -> &'a State
    ensures { result.now.values ≡ state_after first.now.values steps.now }
{
    match steps.last() {
        Some(step) => &step.target,
        None => first,
    }
}

/// The step from a state along a branch of a choice.
pub(crate) fn step_along(
    alloc: Global,
    state: &State,
    choice: &OpenChoice,
    branch: &OpenBranch,
) -> Result<Step, AllocError>
    ensures { IfOk result (λ t. t ≡ record { label = option_copied choice.now.label; target = record { values = open_target state.now.values branch.now } }) }
{
    let label = copy_label(alloc, choice.label)?;
    let target = branch.target(alloc, state)?;
    Ok(Step { label, target })
}
