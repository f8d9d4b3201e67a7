//! The choices of a state, with the states that they lead to.
ghost use Rattle.std.specs.Prelude.{◌≡◌, map, IfOk};
ghost use Rattle.process_core.specs.Choices.{choices};
ghost use Rattle.process_core.specs.Bounds.{excess};
ghost use Rattle.process_core.specs.Answers.{Answers};
ghost use Rattle.process_core.specs.Seen.{seen_branch, seen_choice, seen_outcome};
ghost use Rattle.state_choices.specs.Views.{group_of, sum_of};
ghost use Rattle.state_choices.specs.Groups.{of_groups};
ghost use Rattle.state_choices.specs.Open.{open_branch, open_choice, open_outcome};

use crate::branches::earned;
use crate::data::Group;
use crate::open::{OpenBranch, OpenChoice, OpenOutcome};
use crate::opening::open_choices;
use bridge_io::List;
use frac_core::Frac;
use op_trees::EvalFail;
use process_core::{Branch, Choice, Outcome, State, StepFail, copy_label};
use std::alloc::{AllocError, Global};

/// The choices of a state, in order, from the groups of its combinations. `Wide` where a guard is, else `TooMany` where
/// there are more choices or branches than are given of a state, else `Wide` where something else is that is needed.
pub fn choices_of(alloc: Global, s: &State, groups: &[Group]) -> Result<List<Choice>, StepFail>
    ensures { Answers (excess (of_groups (map group_of groups.now)))
        (λ cs. map seen_choice cs ≡ choices s.now.values (of_groups (map group_of groups.now))) result }
{
    let these = open_choices(alloc, groups)?;
    Ok(built(alloc, s, these.as_slice())?)
}

/// These choices at a state.
fn built(alloc: Global, s: &State, choices: &[OpenChoice]) -> Result<List<Choice>, AllocError>
    ensures { IfOk result (λ cs. map seen_choice cs ≡ map (open_choice s.now.values) choices.now) }
{
    let mut all = List::with_capacity(alloc, choices.len())?;
    for choice in choices {
        all.push(built_choice(alloc, s, choice)?)?;
    }
    Ok(all)
}

fn built_choice(alloc: Global, s: &State, choice: &OpenChoice) -> Result<Choice, AllocError>
    ensures { IfOk result (λ c. seen_choice c ≡ open_choice s.now.values choice.now) }
{
    let label = copy_label(alloc, choice.label)?;
    Ok(Choice {
        label,
        outcome: built_outcome(alloc, s, choice.rewards, &choice.outcome)?,
    })
}

fn built_outcome(
    alloc: Global,
    s: &State,
    rewards: &[Result<Frac, EvalFail>],
    outcome: &OpenOutcome,
) -> Result<Outcome, AllocError>
    ensures { IfOk result (λ o. seen_outcome o ≡ open_outcome s.now.values (map sum_of rewards.now) outcome.now) }
{
    match outcome {
        OpenOutcome::Good(branches) => Ok(Outcome::Good(built_branches(
            alloc,
            s,
            rewards,
            branches.as_slice(),
        )?)),
        OpenOutcome::Faulty(bad) => Ok(Outcome::Faulty(*bad)),
    }
}

fn built_branches(
    alloc: Global,
    s: &State,
    rewards: &[Result<Frac, EvalFail>],
    branches: &[OpenBranch],
) -> Result<List<Branch>, AllocError>
    ensures { IfOk result (λ bs. map seen_branch bs ≡ map (open_branch s.now.values (map sum_of rewards.now)) branches.now) }
{
    let mut all = List::with_capacity(alloc, branches.len())?;
    for branch in branches {
        all.push(built_branch(alloc, s, rewards, branch)?)?;
    }
    Ok(all)
}

fn built_branch(
    alloc: Global,
    s: &State,
    rewards: &[Result<Frac, EvalFail>],
    branch: &OpenBranch,
) -> Result<Branch, AllocError>
    ensures { IfOk result (λ b. seen_branch b ≡ open_branch s.now.values (map sum_of rewards.now) branch.now) }
{
    let target = branch.target(alloc, s)?;
    Ok(Branch {
        weight: branch.weight,
        target,
        rewards: List::from_vec(earned(alloc, rewards, branch.updates.as_slice())?),
    })
}
