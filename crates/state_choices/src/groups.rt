//! The groups of modules by their alphabets, and of elements by vectors.
ghost use Rattle.std.specs.Prelude.{◌≡◌, ◌++◌, ◌∷◌, [], map, IfOk, Some, None, List, Option};
ghost use Rattle.std.specs.List.{AllZip};
ghost use Rattle.std.specs.Option.{option_map};
ghost use Rattle.process_core.specs.Ready.{Name, Ready, Sum, actions_of, of_elements, of_modules};
ghost use Rattle.process_core.specs.Choices.{choices};
ghost use Rattle.process_core.specs.Bounds.{excess};
ghost use Rattle.process_core.specs.Answers.{Answers};
ghost use Rattle.process_core.specs.Seen.{seen_choice};
ghost use Rattle.state_choices.specs.Trimmed.{trimmed_sum};
ghost use Rattle.state_choices.specs.Views.{group_of, sum_of};
ghost use Rattle.state_choices.specs.Members.{Names, IsMemberOf, commands_with, shared_lists, vector_lists, silent_of, of_action, of_vector, vector_of};

use crate::choices::choices_of;
use crate::data::{Action, Command, Group, Member, Vector};
use bridge_io::{List, Text};
use frac_core::Frac;
use op_trees::EvalFail;
use process_core::{Choice, State, StepFail};
use std::alloc::{AllocError, Global};

/// The groups of modules: the commands without action of each, then for each action those with it of each module that has
/// it.
pub fn module_groups<'a>(
    alloc: Global,
    rewards: &'a [Result<Frac, EvalFail>],
    actions: &'a [Action<'a>],
    members: &'a [Member],
) -> Result<Vec<Group<'a>>, AllocError>
    ensures { IfOk result (λ gs. map group_of gs.items ≡ map (silent_of rewards.now) members.now ++ map (of_action members.now) actions.now) }
{
    let mut groups = silent_groups(alloc, rewards, members)?;
    for action in actions {
        groups.push(Group {
            label: Some(action.name),
            rewards: action.rewards.as_slice(),
            lists: shared_lists(alloc, action.name, members)?,
        })?;
    }
    Ok(groups)
}

/// The groups of elements: the silent edges of each, then for each vector the edges that it names.
pub fn element_groups<'a>(
    alloc: Global,
    rewards: &'a [Result<Frac, EvalFail>],
    vectors: &'a [Vector],
    members: &'a [Member],
) -> Result<Vec<Group<'a>>, AllocError>
    ensures { IfOk result (λ gs. map group_of gs.items ≡ map (silent_of rewards.now) members.now ++ map (of_vector rewards.now members.now) vectors.now) }
{
    let mut groups = silent_groups(alloc, rewards, members)?;
    for vector in vectors {
        groups.push(Group {
            label: vector.result.as_ref(),
            rewards,
            lists: vector_lists(alloc, vector.parts.as_slice(), members)?,
        })?;
    }
    Ok(groups)
}

/// The commands without action of each member.
fn silent_groups<'a>(
    alloc: Global,
    rewards: &'a [Result<Frac, EvalFail>],
    members: &'a [Member],
) -> Result<Vec<Group<'a>>, AllocError>
    ensures { IfOk result (λ gs. map group_of gs.items ≡ map (silent_of rewards.now) members.now) }
{
    let mut groups = Vec::new(alloc);
    for member in members {
        let mut lists = Vec::new(alloc);
        lists.push(member.silent.as_slice())?;
        groups.push(Group {
            label: None,
            rewards,
            lists,
        })?;
    }
    Ok(groups)
}

/// Of the members that have an action, the commands with it.
fn shared_lists<'a>(
    alloc: Global,
    action: &Text,
    members: &'a [Member],
) -> Result<Vec<&'a [Command]>, AllocError>
    ensures { IfOk result (λ ls. map (λ l. l.now) ls.items ≡ shared_lists action.now members.now) }
{
    let mut lists = Vec::new(alloc);
    for member in members {
        if let Some(commands) = commands_with(member, action) {
            lists.push(commands)?;
        }
    }
    Ok(lists)
}

/// Of each element that the vector names an action for, the edges with it.
fn vector_lists<'a>(
    alloc: Global,
    parts: &[Option<Text>],
    members: &'a [Member],
) -> Result<Vec<&'a [Command]>, AllocError>
    ensures { IfOk result (λ ls. map (λ l. l.now) ls.items ≡ vector_lists parts.now members.now) }
{
    let mut lists = Vec::new(alloc);
    for (i, part) in parts.iter().enumerate() {
        if i == members.len() {
            return Ok(lists);
        }
        let member = &members[i];
        match part {
            Some(action) => lists.push(commands_with(member, action).unwrap_or(&[]))?,
            None => {}
        }
    }
    Ok(lists)
}

/// The commands with an action, where the member has it.
fn commands_with<'a>(member: &'a Member, action: &Text) -> Option<&'a [Command]>
    ensures { option_map (λ l. l.now) result ≡ commands_with member.now.parts action.now }
{
    for part in member.parts.as_slice() {
        if part.action.as_str() == action.as_str() {
            return Some(part.commands.as_slice());
        }
    }
    None
}

/// The choices of a state of modules: those of commands without action, then those of each action. `members`, `actions`
/// and `rewards` are what a program has of the commands over unbounded numbers, of which the answer is.
pub fn choices_of_modules(
    alloc: Global,
    s: &State,
    rewards: &[Result<Frac, EvalFail>],
    actions: &[Action],
    members: &[Member],
) -> Result<List<Choice>, StepFail>
    ensures { (earned : Option Name → List Sum) (ms : List (List Ready)) →
        map sum_of rewards.now ≡ map trimmed_sum (earned None) → AllZip (Names earned) actions.now (actions_of ms) → AllZip IsMemberOf members.now ms →
        Answers (excess (of_modules earned ms)) (λ cs. map seen_choice cs ≡ choices s.now.values (of_modules earned ms)) result }
{
    let groups = module_groups(alloc, rewards, actions, members)?;
    choices_of(alloc, s, groups.as_slice())
}

/// The choices of a state of elements: those of silent edges, then those of each vector. `members` and `rewards` are
/// what a program has of the edges over unbounded numbers, of which the answer is.
pub fn choices_of_elements(
    alloc: Global,
    s: &State,
    rewards: &[Result<Frac, EvalFail>],
    vectors: &[Vector],
    members: &[Member],
) -> Result<List<Choice>, StepFail>
    ensures { (earned : List Sum) (es : List (List Ready)) →
        map sum_of rewards.now ≡ map trimmed_sum earned → AllZip IsMemberOf members.now es →
        Answers (excess (of_elements earned (map vector_of vectors.now) es)) (λ cs. map seen_choice cs ≡ choices s.now.values (of_elements earned (map vector_of vectors.now) es)) result }
{
    let groups = element_groups(alloc, rewards, vectors, members)?;
    choices_of(alloc, s, groups.as_slice())
}
