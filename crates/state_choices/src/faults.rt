//! What is wrong with a combination whose guard is true, and what in it is wide.
ghost use Rattle.std.specs.Prelude.{◌≡◌, map, is_none, ◌||◌};
ghost use Rattle.std.specs.List.{list_any};
ghost use Rattle.frac_core.specs.Sums.{total};
ghost use Rattle.process_core.specs.Choices.{number_of, weight_of, is_negative, weights_of, weighs_wrong, kinds_of};
ghost use Rattle.process_core.specs.Bounds.{has_wide_sum, if_all, is_wide_participant};
ghost use Rattle.process_core.specs.Answers.{Answers, only_wide};
ghost use Rattle.process_core.specs.Seen.{seen_kinds};
ghost use Rattle.state_choices.specs.Flaws.{flaws_in, sum_flaws};
ghost use Rattle.state_choices.specs.Views.{seen_of, command_of, update_of, sum_of, participants_of};

use crate::data::{Command, Update};
use crate::flaws::{Flaws, flaws_in};
use crate::numbers::plus;
use crate::values::number_of;
use frac_core::Frac;
use op_trees::EvalFail;
use process_core::{Bad, StepFail};

/// The kinds of faults of a combination; `earned` are the flaws of its rewards. `Wide` exactly where a participant or a
/// reward is wide.
pub(crate) fn kinds_of(
    rewards: &[Result<Frac, EvalFail>],
    earned: Flaws,
    participants: &[&Command],
) -> Result<Bad, StepFail>
    requires { earned ≡ flaws_in sum_flaws rewards.now }
    ensures { Answers (only_wide (list_any is_wide_participant (participants_of participants.now) || list_any (λ m. m.wide) (map sum_of rewards.now)))
        (λ k. seen_kinds k ≡ kinds_of (map sum_of rewards.now) (participants_of participants.now)) result }
{
    let flaws = flaws_in(participants).or(earned);
    if flaws.wide {
        return Err(StepFail::Wide);
    }
    let weight = is_weighed_wrong(participants)?;
    Ok(Bad {
        undef: flaws.undef,
        range: flaws.range,
        weight,
    })
}

// ---- no distribution

/// Whether the probabilities of some participant are no distribution. All are looked at, since a sum of any may be wide.
fn is_weighed_wrong(participants: &[&Command]) -> Result<bool, StepFail>
    ensures { Answers (only_wide (list_any (λ r. if_all (weights_of (command_of r.now).updates) has_wide_sum) participants.now))
        (λ b. b ≡ list_any (λ r. weighs_wrong (weights_of (command_of r.now).updates)) participants.now) result }
{
    let mut is_wrong = false;
    for r in participants {
        let this = weighs_wrong(r.updates.as_slice())?;
        is_wrong = is_wrong || this;
    }
    Ok(is_wrong)
}

/// Whether the probabilities of updates are all defined, and one is negative or their sum isn't 1.
fn weighs_wrong(updates: &[Update]) -> Result<bool, StepFail>
    ensures { Answers (only_wide (if_all (weights_of (map update_of updates.now)) has_wide_sum))
        (λ b. b ≡ weighs_wrong (weights_of (map update_of updates.now))) result }
{
    if has_undefined_weight(updates) {
        return Ok(false);
    }
    let sum = total(updates)?;
    let is_negative = has_negative_weight(updates);
    Ok(is_negative || sum != Frac::one())
}

fn has_undefined_weight(updates: &[Update]) -> bool
    ensures { result ≡ list_any (λ u. is_none (number_of (seen_of u.weight).value)) updates.now }
{
    updates.iter().any(|u| number_of(u.weight).is_none())
}

fn has_negative_weight(updates: &[Update]) -> bool
    ensures { result ≡ list_any (λ u. is_negative (weight_of (update_of u))) updates.now }
{
    updates.iter().any(|u| weight_of(u).num() < 0)
}

/// The sum of the probabilities.
fn total(updates: &[Update]) -> Result<Frac, StepFail>
    ensures { Answers (only_wide (has_wide_sum (map (λ u. weight_of (update_of u)) updates.now)))
        (λ sum. sum ≡ total (map (λ u. weight_of (update_of u)) updates.now)) result }
{
    let mut sum = Frac::zero();
    for u in updates {
        match plus(sum, weight_of(u)) {
            Ok(more) => sum = more,
            Err(_) => return Err(StepFail::Wide),
        }
    }
    Ok(sum)
}

/// The probability of an update, 0 where it has none.
pub(crate) fn weight_of(update: &Update) -> Frac
    ensures { result ≡ weight_of (update_of update.now) }
{
    number_of(update.weight).unwrap_or(Frac::zero())
}
