//! The choices of a state, of which no state that they lead to is built.
ghost use Rattle.std.specs.Prelude.{◌≡◌, ◌++◌, ◌∷◌, [], List, map, IfOk, OnOk, option_copied, is_none};
ghost use Rattle.std.specs.List.{filter, flat_map, list_any};
ghost use Rattle.process_core.specs.Process as process;
ghost use Rattle.process_core.specs.Ready.{Sum, Values};
ghost use Rattle.process_core.specs.Choices.{is_false, choice_of, choices, guard_of, kinds_of, undef_alone, outcome_of, branch_of, ways};
ghost use Rattle.process_core.specs.Bounds.{excess, is_wide_rest};
ghost use Rattle.process_core.specs.Answers.{Answers, only_wide};
ghost use Rattle.state_choices.specs.Views.{seen_of, command_of, group_of, participants_of, sum_of, combination_of, alone_in};
ghost use Rattle.state_choices.specs.Groups.{of_group, of_groups};
ghost use Rattle.state_choices.specs.Counted.{may_hold, is_wide_outcome};
ghost use Rattle.state_choices.specs.Flaws.{flaws_in, sum_flaws};
ghost use Rattle.state_choices.specs.Open.{open_choice, open_outcome};

use crate::bounds::{has_wide_guard, is_too_many, may_hold};
use crate::branches::branches;
use crate::data::{Command, Group};
use crate::faults::kinds_of;
use crate::flaws::{Flaws, flaws_in};
use crate::open::{OpenChoice, OpenOutcome};
use crate::product::one_of_each;
use crate::values::{is_false, is_undefined};
use bridge_io::{List, Text};
use frac_core::Frac;
use op_trees::EvalFail;
use process_core::{Bad, StepFail};
use std::alloc::{AllocError, Global};

/// The choices of a state, in order, from the groups of its combinations; at whichever state, since what they lead to is
/// left open. `Wide` where a guard is, else `TooMany` where there are more choices or branches than are given of a state,
/// else `Wide` where something else is that is needed.
pub fn open_choices<'a>(
    alloc: Global,
    groups: &[Group<'a>],
) -> Result<List<OpenChoice<'a>>, StepFail>
    ensures { (s : Values) → Answers (excess (of_groups (map group_of groups.now)))
        (λ cs. map (open_choice s) cs ≡ choices s (of_groups (map group_of groups.now))) result }
{
    if has_wide_guard(groups) {
        return Err(StepFail::Wide);
    }
    if is_too_many(groups) {
        return Err(StepFail::TooMany);
    }
    let all = all_choices(alloc, groups)?;
    Ok(all)
}

/// The choices of all groups.
fn all_choices<'a>(alloc: Global, groups: &[Group<'a>]) -> Result<List<OpenChoice<'a>>, StepFail>
    ensures { (s : Values) → Answers (only_wide (list_any is_wide_rest (of_groups (map group_of groups.now))))
        (λ cs. map (open_choice s) cs ≡ choices s (of_groups (map group_of groups.now))) result }
{
    let mut all = List::with_capacity(alloc, groups.len())?;
    for group in groups {
        add_choices(alloc, group, &mut all)?;
    }
    Ok(all)
}

/// Adds the choices of a group. The flaws of what it earns are found once for all its combinations.
fn add_choices<'a>(
    alloc: Global,
    group: &Group<'a>,
    all: &mut List<OpenChoice<'a>>,
) -> Result<(), StepFail>
    ensures { (s : Values) → Answers (only_wide (list_any is_wide_rest (of_group (group_of group.now))))
        (λ u. map (open_choice s) all.new ≡ map (open_choice s) all.old ++ choices s (of_group (group_of group.now))) result }
{
    let earned = flaws_in(group.rewards);
    let lists = group.lists.as_slice();
    if lists.len() == 1 {
        return add_each_alone(alloc, group, earned, lists[0], all);
    }
    add_combinations(alloc, group, earned, all)
}

/// Adds the choices of commands that are each a combination by itself. No list of participants is made.
fn add_each_alone<'a>(
    alloc: Global,
    group: &Group<'a>,
    earned: Flaws,
    list: &'a [Command],
    all: &mut List<OpenChoice<'a>>,
) -> Result<(), StepFail>
    requires { earned ≡ flaws_in sum_flaws group.now.rewards.now }
    ensures { (s : Values) → Answers (only_wide (list_any (λ r. is_wide_rest (alone_in group.now r)) list.now))
        (λ u. map (open_choice s) all.new ≡ map (open_choice s) all.old ++ flat_map (λ r. choice_of s (alone_in group.now r)) list.now) result }
{
    for command in list {
        add_choice(alloc, group, earned, &[command], all)?;
    }
    Ok(())
}

/// Adds the choices of a group, each of a combination of one command of each list.
fn add_combinations<'a>(
    alloc: Global,
    group: &Group<'a>,
    earned: Flaws,
    all: &mut List<OpenChoice<'a>>,
) -> Result<(), StepFail>
    requires { earned ≡ flaws_in sum_flaws group.now.rewards.now }
    ensures { (s : Values) → Answers (only_wide (list_any is_wide_rest (of_group (group_of group.now))))
        (λ u. map (open_choice s) all.new ≡ map (open_choice s) all.old ++ choices s (of_group (group_of group.now))) result }
{
    let lists = open_lists(alloc, group)?;
    let ways = one_of_each(alloc, lists.as_slice())?;
    for way in ways.as_slice() {
        add_choice(alloc, group, earned, way.as_slice(), all)?;
    }
    Ok(())
}

/// The commands of each list that disable no combination.
fn open_lists<'a>(alloc: Global, group: &Group<'a>) -> Result<Vec<Vec<&'a Command>>, AllocError>
    ensures { IfOk result (λ ls. map (λ l. participants_of l.items) ls.items ≡ map (filter may_hold) (group_of group.now).lists) }
{
    let mut lists = Vec::with_capacity(alloc, group.lists.len())?;
    for list in group.lists.as_slice() {
        lists.push(open_commands(alloc, list)?)?;
    }
    Ok(lists)
}

fn open_commands<'a>(alloc: Global, list: &'a [Command]) -> Result<Vec<&'a Command>, AllocError>
    ensures { IfOk result (λ rs. participants_of rs.items ≡ filter may_hold (map command_of list.now)) }
{
    let mut open = Vec::new(alloc);
    for r in list {
        if may_hold(r) {
            open.push(r)?;
        }
    }
    Ok(open)
}

/// Adds the choice of a combination; none where its guard is false.
fn add_choice<'a>(
    alloc: Global,
    group: &Group<'a>,
    earned: Flaws,
    participants: &[&'a Command],
    all: &mut List<OpenChoice<'a>>,
) -> Result<(), StepFail>
    requires { earned ≡ flaws_in sum_flaws group.now.rewards.now }
    ensures { (s : Values) → Answers (only_wide (is_wide_rest (combination_of group.now participants.now)))
        (λ u. map (open_choice s) all.new ≡ map (open_choice s) all.old ++ choice_of s (combination_of group.now participants.now)) result }
{
    match guard_of(participants) {
        Some(false) => Ok(()),
        None => Ok(push_choice(group, undef_alone(), all)?),
        Some(true) => {
            let outcome = outcome_of(alloc, group.rewards, earned, participants)?;
            Ok(push_choice(group, outcome, all)?)
        }
    }
}

/// Adds a choice of a group with this outcome.
fn push_choice<'a>(
    group: &Group<'a>,
    outcome: OpenOutcome<'a>,
    all: &mut List<OpenChoice<'a>>,
) -> Result<(), AllocError>
    ensures { (s : Values) → OnOk result (map (open_choice s) all.new ≡ map (open_choice s) all.old
        ++ record { label = option_copied group.now.label; outcome = open_outcome s (map sum_of group.now.rewards.now) outcome.entry } ∷ []) }
{
    all.push(OpenChoice {
        label: group.label,
        rewards: group.rewards,
        outcome,
    })
}

/// The guard of a combination: false where a participant's is, else undefined where one is, else true.
#[tactic(auto, using(crate::proofs::Opened::guard_is))]
fn guard_of(participants: &[&Command]) -> Option<bool>
    ensures { result ≡ guard_of (participants_of participants.now) }
{
    if has_false_guard(participants) {
        Some(false)
    } else if has_undefined_guard(participants) {
        None
    } else {
        Some(true)
    }
}

fn has_false_guard(participants: &[&Command]) -> bool
    ensures { result ≡ list_any (λ r. is_false (seen_of r.now.guard).value) participants.now }
{
    participants.iter().any(|r| is_false(r.guard))
}

fn has_undefined_guard(participants: &[&Command]) -> bool
    ensures { result ≡ list_any (λ r. is_none (seen_of r.now.guard).value) participants.now }
{
    participants.iter().any(|r| is_undefined(r.guard))
}

/// The outcome of a combination whose guard is undefined.
fn undef_alone<'a>() -> OpenOutcome<'a>
    ensures { (s : Values) (rewards : List Sum) → open_outcome s rewards result ≡ process.Bad undef_alone }
{
    OpenOutcome::Faulty(Bad {
        undef: true,
        range: false,
        weight: false,
    })
}

/// What a combination whose guard is true leads to: its branches, or the kinds of its faults.
fn outcome_of<'a>(
    alloc: Global,
    rewards: &[Result<Frac, EvalFail>],
    earned: Flaws,
    participants: &[&'a Command],
) -> Result<OpenOutcome<'a>, StepFail>
    requires { earned ≡ flaws_in sum_flaws rewards.now }
    ensures { (s : Values) → Answers (only_wide (is_wide_outcome (map sum_of rewards.now) (participants_of participants.now)))
        (λ o. open_outcome s (map sum_of rewards.now) o ≡ outcome_of (kinds_of (map sum_of rewards.now) (participants_of participants.now))
        (map (branch_of s (map sum_of rewards.now)) (ways (participants_of participants.now)))) result }
{
    let kinds = kinds_of(rewards, earned, participants)?;
    if kinds.undef || kinds.range || kinds.weight {
        return Ok(OpenOutcome::Faulty(kinds));
    }
    let branches = branches(alloc, participants)?;
    Ok(OpenOutcome::Good(branches))
}
