//! The branches of a combination.
ghost use Rattle.std.specs.Prelude.{◌≡◌, ◌++◌, ◌∷◌, [], map, IfOk};
ghost use Rattle.std.specs.List.{flat_map, list_any};
ghost use Rattle.frac_core.specs.Fraction.{is_wide, unit};
ghost use Rattle.frac_core.specs.Sums.{product};
ghost use Rattle.process_core.specs.Choices.{weight_of, written, assigned, own_rewards, ways};
ghost use Rattle.process_core.specs.Bounds.{partial_products};
ghost use Rattle.process_core.specs.Answers.{Answers, only_wide};
ghost use Rattle.state_choices.specs.Counted.{is_wide_way};
ghost use Rattle.state_choices.specs.Open.{way_of, weighed};
ghost use Rattle.state_choices.specs.Views.{participants_of, update_of, updates_of, write_of, reward_of, sum_of};

use crate::data::{Command, Reward, Update, Write};
use crate::faults::weight_of;
use crate::numbers::times;
use crate::open::OpenBranch;
use crate::product::{copied, one_of_each};
use crate::values::number_of;
use bridge_io::List;
use frac_core::Frac;
use op_trees::{EvalFail, Value};
use process_core::StepFail;
use std::alloc::{AllocError, Global};

/// The branch of each way to take one update from each participant. `Wide` exactly where a partial product is.
pub(crate) fn branches<'a>(
    alloc: Global,
    participants: &[&'a Command],
) -> Result<List<OpenBranch<'a>>, StepFail>
    ensures { Answers (only_wide (list_any is_wide_way (ways (participants_of participants.now))))
        (λ bs. map way_of bs ≡ map weighed (ways (participants_of participants.now))) result }
{
    if participants.len() == 1 {
        return branches_alone(alloc, participants[0].updates.as_slice());
    }
    branches_together(alloc, participants)
}

/// The branch of each update, where there is one participant. No list of ways is made.
fn branches_alone<'a>(
    alloc: Global,
    updates: &'a [Update],
) -> Result<List<OpenBranch<'a>>, StepFail>
    ensures { Answers (only_wide (list_any (λ u. is_wide_way (update_of u ∷ [])) updates.now))
        (λ bs. map way_of bs ≡ map (λ u. weighed (update_of u ∷ [])) updates.now) result }
{
    let mut all = List::with_capacity(alloc, updates.len())?;
    for update in updates {
        add_branch(alloc, &[update], &mut all)?;
    }
    Ok(all)
}

/// The branch of each way to take one update from each of several participants.
fn branches_together<'a>(
    alloc: Global,
    participants: &[&'a Command],
) -> Result<List<OpenBranch<'a>>, StepFail>
    ensures { Answers (only_wide (list_any is_wide_way (ways (participants_of participants.now))))
        (λ bs. map way_of bs ≡ map weighed (ways (participants_of participants.now))) result }
{
    let ways = ways(alloc, participants)?;
    branches_of(alloc, ways.as_slice())
}

/// The branch of each of these ways.
fn branches_of<'a>(
    alloc: Global,
    ways: &[Vec<&'a Update>],
) -> Result<List<OpenBranch<'a>>, StepFail>
    ensures { Answers (only_wide (list_any (λ w. is_wide_way (updates_of w.items)) ways.now))
        (λ bs. map way_of bs ≡ map (λ w. weighed (updates_of w.items)) ways.now) result }
{
    let mut all = List::with_capacity(alloc, ways.len())?;
    for way in ways {
        add_branch(alloc, way.as_slice(), &mut all)?;
    }
    Ok(all)
}

/// Adds the branch of one update from each participant.
fn add_branch<'a>(
    alloc: Global,
    updates: &[&'a Update],
    all: &mut List<OpenBranch<'a>>,
) -> Result<(), StepFail>
    ensures { Answers (only_wide (is_wide_way (updates_of updates.now)))
        (λ u. map way_of all.new ≡ map way_of all.old ++ weighed (updates_of updates.now) ∷ []) result }
{
    let branch = open_branch(alloc, updates)?;
    Ok(all.push(branch)?)
}

/// The branch of one update from each participant: the product of their probabilities, and the updates.
fn open_branch<'a>(alloc: Global, updates: &[&'a Update]) -> Result<OpenBranch<'a>, StepFail>
    ensures { Answers (only_wide (is_wide_way (updates_of updates.now)))
        (λ b. way_of b ≡ weighed (updates_of updates.now)) result }
{
    let weight = product(updates)?;
    let updates = copied(alloc, updates)?;
    Ok(OpenBranch { weight, updates })
}

/// The ways to take one update from each participant.
fn ways<'a>(alloc: Global, participants: &[&'a Command]) -> Result<Vec<Vec<&'a Update>>, AllocError>
    ensures { IfOk result (λ all. map (λ w. updates_of w.items) all.items ≡ ways (participants_of participants.now)) }
{
    let mut lists = Vec::new(alloc);
    for r in participants {
        lists.push(references(alloc, r.updates.as_slice())?)?;
    }
    one_of_each(alloc, lists.as_slice())
}

/// A reference to each update.
fn references<'a>(alloc: Global, updates: &'a [Update]) -> Result<Vec<&'a Update>, AllocError>
    ensures { IfOk result (λ all. updates_of all.items ≡ map update_of updates.now) }
{
    let mut all = Vec::new(alloc);
    for update in updates {
        all.push(update)?;
    }
    Ok(all)
}

/// The product of the probabilities.
fn product(updates: &[&Update]) -> Result<Frac, StepFail>
    ensures { Answers (only_wide (list_any is_wide (partial_products unit (map (λ u. weight_of (update_of u.now)) updates.now))))
        (λ x. x ≡ product (map (λ u. weight_of (update_of u.now)) updates.now)) result }
{
    let mut weight = Frac::one();
    for u in updates {
        match times(weight, weight_of(u)) {
            Ok(more) => weight = more,
            Err(_) => return Err(StepFail::Wide),
        }
    }
    Ok(weight)
}

// ---- assignments

/// The state after all assignments of the updates.
pub(crate) fn written(
    alloc: Global,
    s: &[Value],
    updates: &[&Update],
) -> Result<Vec<Value>, AllocError>
    ensures { IfOk result (λ t. t.items ≡ written s.now (flat_map (λ u. u.writes) (updates_of updates.now))) }
{
    let mut values = s.to_vec(alloc)?;
    for update in updates {
        values = write(values, update.writes.as_slice());
    }
    Ok(values)
}

/// Makes assignments. Other columns keep their values.
fn write(mut values: Vec<Value>, writes: &[Write]) -> Vec<Value>
    ensures { result.items ≡ written values.items (map write_of writes.now) }
{
    for w in writes {
        if w.column < values.len() {
            values[w.column] = w.value.unwrap_or(Value::Truth(false));
        }
    }
    values
}

/// The rewards of a combination, and in their places those that updates assign.
pub(crate) fn earned(
    alloc: Global,
    rewards: &[Result<Frac, EvalFail>],
    updates: &[&Update],
) -> Result<Vec<Frac>, AllocError>
    ensures { IfOk result (λ t. t.items ≡ assigned (own_rewards (map sum_of rewards.now)) (flat_map (λ u. u.rewards) (updates_of updates.now))) }
{
    let mut earned = own_rewards(alloc, rewards)?;
    for update in updates {
        earned = assign(earned, update.rewards.as_slice());
    }
    Ok(earned)
}

/// The rewards that a combination has by itself.
fn own_rewards(alloc: Global, rewards: &[Result<Frac, EvalFail>]) -> Result<Vec<Frac>, AllocError>
    ensures { IfOk result (λ own. own.items ≡ own_rewards (map sum_of rewards.now)) }
{
    let mut own = Vec::with_capacity(alloc, rewards.len())?;
    for reward in rewards {
        own.push(reward.unwrap_or(Frac::zero()))?;
    }
    Ok(own)
}

/// Puts rewards in their places.
fn assign(mut earned: Vec<Frac>, rewards: &[Reward]) -> Vec<Frac>
    ensures { result.items ≡ assigned earned.items (map reward_of rewards.now) }
{
    for r in rewards {
        if r.structure < earned.len() {
            earned[r.structure] = number_of(r.value).unwrap_or(Frac::zero());
        }
    }
    earned
}
