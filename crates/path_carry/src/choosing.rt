// The labels of PRISM that stand for labels of JANI along a path.

ghost use Rattle.std.specs.Prelude.{◌≡◌, ◌&&◌, suc, IfOk, IsTrue, List, length, map};
ghost use Rattle.std.specs.List.{All, find, list_any};
ghost use Rattle.std.specs.Option.{option_map};
ghost use Rattle.process_core.specs.Answers.{Answers};
ghost use Rattle.process_core.specs.Bounds.{excess};
ghost use Rattle.process_core.specs.Choices.{choices};
ghost use Rattle.process_core.specs.Equal.{equal_states};
ghost use Rattle.process_core.specs.Ready.{Sum, same_label};
ghost use Rattle.process_core.specs.Paths.{any_leads_to, is_positive, leads_to};
ghost use Rattle.state_choices.specs.Grouped.{AreGroupsAt};
ghost use Rattle.state_choices.specs.Groups.{of_groups};
ghost use Rattle.state_choices.specs.Open.{open_branch, open_choice, open_outcome, open_target};
ghost use Rattle.state_choices.specs.Views.{group_of};
ghost use Rattle.path_carry.specs.Carried.{chosen};
ghost use Rattle.path_carry.specs.Chosen.{Chooses, fail_at};
ghost use Rattle.path_carry.specs.Index.{IsIndex};
ghost use Rattle.carry_maps.specs.Maps.{candidates};

use crate::index::LabelIndex;
use crate::labels::{first_candidate, is_candidate};
use bridge_io::{List, Text};
use process_core::{State, StepFail, copy_label, same_state};
use state_choices::{Group, GroupedSteps, OpenBranch, OpenChoice, OpenOutcome, open_choices};
use std::alloc::{AllocError, Global};

/// Why steps have no labels.
#[derive(Drop)]
pub(crate) enum LabelsFail {
    /// Want of memory.
    Memory(AllocError),
    /// At the state after so many steps a value that is needed passes the bound of fractions.
    Wide(usize),
    /// The state after so many steps has more choices or branches than are given.
    TooMany(usize),
}

impl From<AllocError> for LabelsFail {
    ghost use Rattle.path_carry.specs.declared.choosing.LabelsFail.TheVariants.{Memory};

    ghost from_gives = { λ e r. r ≡ Memory e };

    fn from(e: AllocError) -> LabelsFail {
        LabelsFail::Memory(e)
    }
}

/// A failure at the state after so many steps.
fn fail_at(k: usize, fail: StepFail) -> LabelsFail
    ensures { result ≡ fail_at k fail }
{
    match fail {
        StepFail::Memory(e) => LabelsFail::Memory(e),
        StepFail::Wide => LabelsFail::Wide(k),
        StepFail::TooMany => LabelsFail::TooMany(k),
    }
}

/// The first good choice whose label is a candidate and that leads from one state to the other. Of the states that choices lead to
/// one is built at a time.
fn leading<'a, 'b>(
    alloc: Global,
    index: &LabelIndex,
    label: &Option<Text>,
    choices: &'b [OpenChoice<'a>],
    from: &State,
    to: &State,
) -> Result<Option<&'b OpenChoice<'a>>, AllocError>
    requires { IsIndex index.now }
    ensures { IfOk result (λ found. option_map (λ c. open_choice from.now.values c.now) found ≡
        find (λ c. list_any (same_label c.label) (candidates index.now.pairs.now label.now) && leads_to to.now.values c.outcome)
        (map (open_choice from.now.values) choices.entry.now)) }
{
    for choice in choices {
        if is_candidate(index, label, choice.label) && leads_to(alloc, &choice.outcome, from, to)? {
            return Ok(Some(choice));
        }
    }
    Ok(None)
}

/// Whether an outcome at a state is a good one that has a branch of positive probability to the other state.
fn leads_to(
    alloc: Global,
    outcome: &OpenOutcome,
    from: &State,
    to: &State,
) -> Result<bool, AllocError>
    ensures { (rewards : List Sum) → IfOk result (λ b. b ≡ leads_to to.now.values (open_outcome from.now.values rewards outcome.now)) }
{
    match outcome {
        OpenOutcome::Good(branches) => any_leads_to(alloc, branches.as_slice(), from, to),
        OpenOutcome::Faulty(_) => Ok(false),
    }
}

fn any_leads_to(
    alloc: Global,
    branches: &[OpenBranch],
    from: &State,
    to: &State,
) -> Result<bool, AllocError>
    ensures { (rewards : List Sum) → IfOk result (λ b. b ≡ any_leads_to to.now.values (map (open_branch from.now.values rewards) branches.now)) }
{
    for branch in branches {
        if leads(alloc, branch, from, to)? {
            return Ok(true);
        }
    }
    Ok(false)
}

fn leads(alloc: Global, branch: &OpenBranch, from: &State, to: &State) -> Result<bool, AllocError>
    ensures { IfOk result (λ b. b ≡ (is_positive branch.now.weight && equal_states to.now.values (open_target from.now.values branch.now))) }
{
    let target = branch.target(alloc, from)?;
    Ok(branch.weight.num() > 0 && same_state(to, &target))
}

/// The label that stands for a label: that of such a choice, else the first candidate.
fn chosen(
    alloc: Global,
    index: &LabelIndex,
    label: &Option<Text>,
    choices: &[OpenChoice],
    from: &State,
    to: &State,
) -> Result<Option<Text>, AllocError>
    requires { IsIndex index.now }
    ensures { IfOk result (λ l. l ≡ chosen (candidates index.now.pairs.now label.now) (map (open_choice from.now.values) choices.now) to.now.values) }
{
    match leading(alloc, index, label, choices, from, to)? {
        Some(choice) => copy_label(alloc, choice.label),
        None => copy_label(alloc, first_candidate(index, label)),
    }
}

/// The label of a step from one state to another.
fn step_label<T: GroupedSteps>(
    alloc: Global,
    prism: &T,
    index: &LabelIndex,
    from: &State,
    label: &Option<Text>,
    to: &State,
) -> Result<Option<Text>, StepFail>
    requires index { IsIndex index.now }
    requires state { IsTrue ((T.process prism.now).is_state from.now.values) }
    ensures { Answers ((T.process prism.now).excess from.now.values)
        (λ l. l ≡ chosen (candidates index.now.pairs.now label.now) ((T.process prism.now).choices from.now.values) to.now.values) result }
{
    let evaluated = prism.evaluated(alloc, from)?;
    label_at(alloc, prism, &evaluated, index, from, label, to)
}

/// The same, from what commands come out as in the first state.
fn label_at<T: GroupedSteps>(
    alloc: Global,
    prism: &T,
    evaluated: &T::Evaluated,
    index: &LabelIndex,
    from: &State,
    label: &Option<Text>,
    to: &State,
) -> Result<Option<Text>, StepFail>
    requires index { IsIndex index.now }
    requires groups { AreGroupsAt (T.process prism.now) from.now.values (T.groups_of prism.now evaluated.now) }
    ensures { Answers ((T.process prism.now).excess from.now.values)
        (λ l. l ≡ chosen (candidates index.now.pairs.now label.now) ((T.process prism.now).choices from.now.values) to.now.values) result }
{
    let groups = prism.groups(alloc, evaluated)?;
    label_of(alloc, groups.as_slice(), index, from, label, to)
}

/// The same of the choices of groups, which are left open.
fn label_of(
    alloc: Global,
    groups: &[Group],
    index: &LabelIndex,
    from: &State,
    label: &Option<Text>,
    to: &State,
) -> Result<Option<Text>, StepFail>
    requires { IsIndex index.now }
    ensures { Answers (excess (of_groups (map group_of groups.now)))
        (λ l. l ≡ chosen (candidates index.now.pairs.now label.now) (choices from.now.values (of_groups (map group_of groups.now))) to.now.values) result }
{
    let choices = open_choices(alloc, groups)?;
    Ok(chosen(alloc, index, label, choices.as_slice(), from, to)?)
}

/// The labels of steps along states, or at which state from which a step is taken something passes a bound first.
pub(crate) fn chosen_labels<T: GroupedSteps>(
    alloc: Global,
    prism: &T,
    index: &LabelIndex,
    states: &[State],
    labels: &[Option<Text>],
) -> Result<List<Option<Text>>, LabelsFail>
    requires index { IsIndex index.now }
    requires lengths { length states.now ≡ suc (length labels.now) }
    requires states { All (λ s. IsTrue ((T.process prism.now).is_state s.values)) states.now }
    ensures { Chooses (T.process prism.now) index.now.pairs.now states.now labels.now result }
{
    let mut new = List::new(alloc);
    for (k, label) in labels.iter().enumerate() {
        match step_label(alloc, prism, index, &states[k], label, &states[k + 1]) {
            Ok(label) => new.push(label)?,
            Err(fail) => return Err(fail_at(k, fail)),
        }
    }
    Ok(new)
}
