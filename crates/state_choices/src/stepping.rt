//! Whether a choice leads from one state to another, by the columns in which they differ: no state is built, and of each
//! branch only what it assigns is looked at.
ghost use Rattle.std.specs.Prelude.{◌≡◌, ◌<◌, ◌&&◌, ℕ, List, IfOk, IsTrue, length, map, option_copied, slice_set};
ghost use Rattle.std.specs.List.{flat_map};
ghost use Rattle.process_core.specs.Answers.{Answers};
ghost use Rattle.process_core.specs.Bounds.{excess};
ghost use Rattle.process_core.specs.Choices.{choices, written};
ghost use Rattle.process_core.specs.Equal.{equal_states, equal_values};
ghost use Rattle.process_core.specs.Paths.{any_leads_to, is_positive, is_step, leads_to};
ghost use Rattle.process_core.specs.Ready.{Sum, same_label};
ghost use Rattle.state_choices.specs.Apart.{columns_apart, differs, taken_back};
ghost use Rattle.state_choices.specs.Grouped.{AreGroupsAt};
ghost use Rattle.state_choices.specs.Groups.{of_groups};
ghost use Rattle.state_choices.specs.Open.{open_branch, open_choice, open_outcome, open_target};
ghost use Rattle.state_choices.specs.Views.{group_of, updates_of, write_of};

use crate::data::{Group, Update, Write};
use crate::grouped::GroupedSteps;
use crate::open::{OpenBranch, OpenChoice, OpenOutcome};
use crate::opening::open_choices;
use bridge_io::Text;
use frac_core::Frac;
use op_trees::Value;
use process_core::{State, StepFail};
use std::alloc::{AllocError, Global};

/// Whether, of the choices of a state, a good one with this label has a branch of positive probability to another state.
/// `Wide` or `TooMany` exactly where one of them passes a bound.
pub fn has_step<S: GroupedSteps>(
    alloc: Global,
    s: &S,
    from: &State,
    label: &Option<Text>,
    to: &State,
) -> Result<bool, StepFail>
    requires { IsTrue ((S.process s.now).is_state from.now.values) }
    ensures { Answers ((S.process s.now).excess from.now.values)
        (λ b. b ≡ is_step ((S.process s.now).choices from.now.values) label.now to.now.values) result }
{
    let evaluated = s.evaluated(alloc, from)?;
    has_step_at(alloc, s, &evaluated, from, label, to)
}

/// The same, from what commands or edges come out as in the first state.
fn has_step_at<S: GroupedSteps>(
    alloc: Global,
    s: &S,
    evaluated: &S::Evaluated,
    from: &State,
    label: &Option<Text>,
    to: &State,
) -> Result<bool, StepFail>
    requires { AreGroupsAt (S.process s.now) from.now.values (S.groups_of s.now evaluated.now) }
    ensures { Answers ((S.process s.now).excess from.now.values)
        (λ b. b ≡ is_step ((S.process s.now).choices from.now.values) label.now to.now.values) result }
{
    let groups = s.groups(alloc, evaluated)?;
    has_step_of(alloc, groups.as_slice(), from, label, to)
}

/// The same of the choices of groups.
fn has_step_of(
    alloc: Global,
    groups: &[Group],
    from: &State,
    label: &Option<Text>,
    to: &State,
) -> Result<bool, StepFail>
    ensures { Answers (excess (of_groups (map group_of groups.now)))
        (λ b. b ≡ is_step (choices from.now.values (of_groups (map group_of groups.now))) label.now to.now.values) result }
{
    let choices = open_choices(alloc, groups)?;
    Ok(has_step_among(
        alloc,
        choices.as_slice(),
        from.values.as_slice(),
        label,
        to.values.as_slice(),
    )?)
}

/// The same of these choices.
fn has_step_among(
    alloc: Global,
    choices: &[OpenChoice],
    from: &[Value],
    label: &Option<Text>,
    to: &[Value],
) -> Result<bool, AllocError>
    ensures { IfOk result (λ b. b ≡ is_step (map (open_choice from.now) choices.now) label.now to.now) }
{
    if from.len() != to.len() {
        return Ok(false);
    }
    let apart = columns_apart(from, to);
    let mut values = from.to_vec(alloc)?;
    Ok(any_steps(choices, from, label, to, apart, &mut values))
}

/// In how many columns two states differ.
fn columns_apart(from: &[Value], to: &[Value]) -> usize
    requires { length from.now ≡ length to.now }
    ensures { result ≡ columns_apart from.now to.now }
{
    let mut count = 0;
    for (i, value) in from.iter().enumerate() {
        count += differs(value, &to[i]);
    }
    count
}

/// 1 where a value isn't the wanted one.
fn differs(value: &Value, wanted: &Value) -> usize
    ensures value { result ≡ differs value.now wanted.now }
    ensures small { result < 2 }
{
    if is_same(value, wanted) { 0 } else { 1 }
}

fn is_same(value: &Value, wanted: &Value) -> bool
    ensures { result ≡ equal_values wanted.now value.now }
{
    match wanted {
        Value::Truth(a) => match value {
            Value::Truth(b) => *a == *b,
            Value::Number(_) => false,
        },
        Value::Number(x) => match value {
            Value::Truth(_) => false,
            Value::Number(y) => *x == *y,
        },
    }
}

/// The same where `apart` columns differ; `values` are those of the first state, and are so again.
fn any_steps(
    choices: &[OpenChoice],
    from: &[Value],
    label: &Option<Text>,
    to: &[Value],
    apart: usize,
    values: &mut Vec<Value>,
) -> bool
    requires long { length from.now ≡ length to.now }
    requires apart { apart ≡ columns_apart from.now to.now }
    requires values { values.old.items ≡ from.now }
    ensures { result ≡ is_step (map (open_choice from.now) choices.now) label.now to.now }
{
    for choice in choices {
        if is_labelled(label, choice.label) && leads_to(&choice.outcome, from, to, apart, values) {
            return true;
        }
    }
    false
}

/// Whether a label is this one.
fn is_labelled(wanted: &Option<Text>, label: Option<&Text>) -> bool
    ensures { result ≡ same_label wanted.now (option_copied label.entry) }
{
    match (wanted, label) {
        (None, None) => true,
        (Some(x), Some(y)) => x.as_str() == y.as_str(),
        _ => false,
    }
}

/// Whether an outcome is a good one that has a branch of positive probability to the other state.
fn leads_to(
    outcome: &OpenOutcome,
    from: &[Value],
    to: &[Value],
    apart: usize,
    values: &mut Vec<Value>,
) -> bool
    requires long { length from.now ≡ length to.now }
    requires apart { apart ≡ columns_apart from.now to.now }
    requires values { values.old.items ≡ from.now }
    ensures leads { (rewards : List Sum) → result ≡ leads_to to.now (open_outcome from.now rewards outcome.now) }
    ensures values { values.new.items ≡ from.now }
{
    match outcome {
        OpenOutcome::Good(branches) => any_leads_to(branches.as_slice(), from, to, apart, values),
        OpenOutcome::Faulty(_) => false,
    }
}

fn any_leads_to(
    branches: &[OpenBranch],
    from: &[Value],
    to: &[Value],
    apart: usize,
    values: &mut Vec<Value>,
) -> bool
    requires long { length from.now ≡ length to.now }
    requires apart { apart ≡ columns_apart from.now to.now }
    requires values { values.old.items ≡ from.now }
    ensures leads { (rewards : List Sum) → result ≡ any_leads_to to.now (map (open_branch from.now rewards) branches.now) }
    ensures values { values.new.items ≡ from.now }
{
    for branch in branches {
        if leads(branch, from, to, apart, values) {
            return true;
        }
    }
    false
}

/// Whether a branch of positive probability leads to the other state: its assignments are made, the columns that differ are
/// counted on, and the assignments are taken back.
fn leads(
    branch: &OpenBranch,
    from: &[Value],
    to: &[Value],
    apart: usize,
    values: &mut Vec<Value>,
) -> bool
    requires long { length from.now ≡ length to.now }
    requires apart { apart ≡ columns_apart from.now to.now }
    requires values { values.old.items ≡ from.now }
    ensures leads { result ≡ (is_positive branch.now.weight && equal_states to.now (open_target from.now branch.now)) }
    ensures values { values.new.items ≡ from.now }
{
    let updates = branch.updates.as_slice();
    let left = put_all(values, to, apart, updates);
    take_all_back(values, from, updates);
    is_positive(branch.weight) && left == 0
}

fn is_positive(weight: Frac) -> bool
    ensures { result ≡ is_positive weight }
{
    weight.num() > 0
}

/// Makes the assignments of updates. The result is in how many columns the values differ from the wanted ones.
fn put_all(values: &mut Vec<Value>, to: &[Value], apart: usize, updates: &[&Update]) -> usize
    requires long { length values.old.items ≡ length to.now }
    requires apart { apart ≡ columns_apart values.old.items to.now }
    ensures values { values.new.items ≡ written values.old.items (flat_map (λ u. u.writes) (updates_of updates.now)) }
    ensures apart { result ≡ columns_apart values.new.items to.now }
{
    let mut left = apart;
    for update in updates {
        left = put(values, to, left, update.writes.as_slice());
    }
    left
}

/// Makes assignments.
fn put(values: &mut Vec<Value>, to: &[Value], apart: usize, writes: &[Write]) -> usize
    requires long { length values.old.items ≡ length to.now }
    requires apart { apart ≡ columns_apart values.old.items to.now }
    ensures values { values.new.items ≡ written values.old.items (map write_of writes.now) }
    ensures apart { result ≡ columns_apart values.new.items to.now }
{
    let mut left = apart;
    for w in writes {
        left = put_value(
            values,
            to,
            left,
            w.column,
            w.value.unwrap_or(Value::Truth(false)),
        );
    }
    left
}

/// Puts a value into a column, where there is one.
fn put_value(
    values: &mut Vec<Value>,
    to: &[Value],
    apart: usize,
    column: usize,
    value: Value,
) -> usize
    requires long { length values.old.items ≡ length to.now }
    requires apart { apart ≡ columns_apart values.old.items to.now }
    ensures values { values.new.items ≡ slice_set values.old.items column value }
    ensures apart { result ≡ columns_apart values.new.items to.now }
{
    if column >= values.len() {
        return apart;
    }
    let before = differs(&values[column], &to[column]);
    let after = differs(&value, &to[column]);
    values[column] = value;
    apart - before + after
}

/// Gives each column that updates assign its value from before.
fn take_all_back(values: &mut Vec<Value>, from: &[Value], updates: &[&Update])
    requires { length values.old.items ≡ length from.now }
    ensures { values.new.items ≡ taken_back from.now values.old.items (flat_map (λ u. u.writes) (updates_of updates.now)) }
{
    for update in updates {
        take_back(values, from, update.writes.as_slice());
    }
}

fn take_back(values: &mut Vec<Value>, from: &[Value], writes: &[Write])
    requires { length values.old.items ≡ length from.now }
    ensures { values.new.items ≡ taken_back from.now values.old.items (map write_of writes.now) }
{
    for w in writes {
        if w.column < values.len() {
            values[w.column] = from[w.column];
        }
    }
}
