//! What passes a bound before anything is built: wide guards, and too many choices or branches.
ghost use Rattle.std.specs.Prelude.{◌≡◌, ◌==◌, map, ℕ, List, ◌||◌, if◌then◌else◌, length};
ghost use Rattle.std.specs.List.{list_any, sum_by, count_by, filter};
ghost use Rattle.op_trees.specs.Tree.{capped};
ghost use Rattle.process_core.specs.Bounds.{has_wide_guard, is_too_many, is_enabled};
ghost use Rattle.state_choices.specs.Views.{seen_of, command_of, group_of};
ghost use Rattle.state_choices.specs.Groups.{of_group, of_groups};
ghost use Rattle.state_choices.specs.Counted.{is_empty, may_hold, choice_count, branch_total};

use crate::data::{Command, Group};
use crate::values::{is_false, is_wide};

/// Whether the guard of a command that stands in a combination is wide.
pub(crate) fn has_wide_guard(groups: &[Group]) -> bool
    ensures { result ≡ list_any (λ g. list_any has_wide_guard (of_group (group_of g))) groups.now }
{
    groups.iter().any(|group| is_guarded_wide(group))
}

/// Whether a group has a combination, and a command in it whose guard is wide.
#[tactic(auto, using(crate::proofs::Opened::guarded_wide_is))]
fn is_guarded_wide(group: &Group) -> bool
    ensures { result ≡ list_any has_wide_guard (of_group (group_of group.now)) }
{
    !has_empty_list(group) && has_wide_command(group)
}

/// Whether a list of a group has no member.
fn has_empty_list(group: &Group) -> bool
    ensures { result ≡ list_any (λ l. length l.now == 0) group.now.lists.items }
{
    group.lists.as_slice().iter().any(|list| list.is_empty())
}

/// Whether a command of a group has a wide guard.
fn has_wide_command(group: &Group) -> bool
    ensures { result ≡ list_any (λ l. list_any (λ r. (seen_of r.guard).wide) l.now) group.now.lists.items }
{
    group.lists.as_slice().iter().any(|list| has_wide_in(list))
}

fn has_wide_in(list: &[Command]) -> bool
    ensures { result ≡ list_any (λ r. (seen_of r.guard).wide) list.now }
{
    list.iter().any(|r| is_wide(r.guard))
}

/// Whether there are more than 65,536 choices, or more than 1,000,000 branches of them all.
pub(crate) fn is_too_many(groups: &[Group]) -> bool
    ensures { result ≡ is_too_many (filter is_enabled (of_groups (map group_of groups.now))) }
{
    let mut choices: u64 = 0;
    let mut branches: u64 = 0;
    for group in groups {
        choices = choices.saturating_add(choice_count(group));
        branches = branches.saturating_add(branch_total(group));
    }
    choices > 65_536 || branches > 1_000_000
}

/// How many combinations of a group aren't disabled.
fn choice_count(group: &Group) -> u64
    ensures { result ≡ capped (choice_count (group_of group.now)) }
{
    let mut count: u64 = 1;
    for list in group.lists.as_slice() {
        count = count.saturating_mul(open_count(list));
    }
    count
}

/// How many branches the combinations of a group have that aren't disabled.
fn branch_total(group: &Group) -> u64
    ensures { result ≡ capped (branch_total (group_of group.now)) }
{
    let mut count: u64 = 1;
    for list in group.lists.as_slice() {
        count = count.saturating_mul(update_count(list));
    }
    count
}

/// How many commands of a list disable no combination.
fn open_count(list: &[Command]) -> u64
    ensures { result ≡ capped (count_by (λ r. may_hold (command_of r)) list.now) }
{
    let mut count: u64 = 0;
    for r in list {
        if may_hold(r) {
            count = count.saturating_add(1);
        }
    }
    count
}

/// How many updates these have.
fn update_count(list: &[Command]) -> u64
    ensures { result ≡ capped (sum_by (λ r. if may_hold (command_of r) then length r.updates else 0) list.now) }
{
    let mut count: u64 = 0;
    for r in list {
        if may_hold(r) {
            count = count.saturating_add(r.updates.len() as u64);
        }
    }
    count
}

/// Whether a command disables no combination: its guard isn't false.
pub(crate) fn may_hold(command: &Command) -> bool
    ensures { result ≡ may_hold (command_of command.now) }
{
    !is_false(command.guard)
}
