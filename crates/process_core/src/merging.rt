// Branches merged by their targets.

ghost use Rattle.std.specs.Prelude.{◌≡◌, ◌<◌, ◌++◌, ◌∷◌, [], List, length, map, IfOk, OnOk, if◌then◌else◌};
ghost use Rattle.std.specs.Ordering.{int_eq};
ghost use Rattle.std.specs.List.{list_any, position_or_len};
ghost use Rattle.std.specs.Cmp.Lexicographic.{pointwise};
ghost use Rattle.frac_core.specs.Fraction.{Fraction, nought};
ghost use Rattle.process_core.specs.Process as process;
ghost use Rattle.process_core.specs.Ready.{Values};
ghost use Rattle.process_core.specs.Seen.{seen_branch};
ghost use Rattle.process_core.specs.Equal.{equal_states};
ghost use Rattle.process_core.specs.Merged.{is_merging_wide, merged};
ghost use Rattle.process_core.specs.Merging.{AddsBranch, IsIndex, IsSummed, key_of, keys_of, parts_of};
ghost use Rattle.process_core.specs.Answers.{Answers, only_wide};

use crate::data::{Branch, State, StepFail, copy_state};
use bridge_io::List;
use frac_core::Frac;
use op_trees::Value;
use std::alloc::{AllocError, Global};
use std::collections::BTreeMap;

/// One branch for each target with the sum of the probabilities, without rewards, in order of first occurrence; targets
/// whose sum is 0 are left out. `Wide` exactly where a partial sum for some target passes the bound; never `TooMany`.
pub fn merged(alloc: Global, branches: &List<Branch>) -> Result<List<Branch>, StepFail>
    ensures { Answers (only_wide (is_merging_wide equal_states (map seen_branch branches.now))) (λ r. map seen_branch r ≡ merged equal_states (map seen_branch branches.now)) result }
{
    let mut places = BTreeMap::new(alloc);
    let mut sums = Vec::new(alloc);
    for branch in branches.as_slice() {
        add_branch(alloc, &mut places, &mut sums, branch)?;
    }
    sums.retain(|sum| sum.weight != Frac::zero());
    Ok(List::from_vec(sums))
}

/// Adds a branch's probability to the sum for its target.
fn add_branch(
    alloc: Global,
    places: &mut BTreeMap<Vec<i64>, usize>,
    sums: &mut Vec<Branch>,
    branch: &Branch,
) -> Result<(), StepFail>
    requires { IsIndex places.old (keys_of (map seen_branch sums.old.items)) }
    ensures sums { (done : List (process.Branch Fraction Values)) → IsSummed done (map seen_branch sums.old.items) → AddsBranch done (seen_branch branch.now) (map seen_branch sums.new.items) result }
    ensures index { OnOk result (IsIndex places.new (keys_of (map seen_branch sums.new.items))) }
{
    let place = place_of(alloc, places, sums, &branch.target)?;
    let sum = &mut sums[place];
    match sum.weight.add(branch.weight) {
        Ok(weight) => {
            sum.weight = weight;
            Ok(())
        }
        Err(_) => Err(StepFail::Wide),
    }
}

/// The place of a target among those so far. A target that is new goes to the end, with the sum 0.
fn place_of(
    alloc: Global,
    places: &mut BTreeMap<Vec<i64>, usize>,
    sums: &mut Vec<Branch>,
    target: &State,
) -> Result<usize, AllocError>
    requires { IsIndex places.old (keys_of (map seen_branch sums.old.items)) }
    ensures place { IfOk result (λ i. i ≡ position_or_len (pointwise int_eq (key_of target.now.values)) (keys_of (map seen_branch sums.old.items))) }
    ensures sums { OnOk result (map seen_branch sums.new.items ≡ (if list_any (pointwise int_eq (key_of target.now.values)) (keys_of (map seen_branch sums.old.items))
        then map seen_branch sums.old.items
        else map seen_branch sums.old.items ++ record { probability = nought; target = target.now.values; rewards = [] } ∷ [])) }
    ensures within { IfOk result (λ i. i < length sums.new.items) }
    ensures index { OnOk result (IsIndex places.new (keys_of (map seen_branch sums.new.items))) }
{
    let key = key_of(alloc, target)?;
    match places.get(&key).copied() {
        Some(place) => Ok(place),
        None => {
            let place = sums.len();
            open_sum(alloc, sums, target)?;
            places.insert(key, place)?;
            Ok(place)
        }
    }
}

/// A sum of 0 for a target, behind the others.
fn open_sum(alloc: Global, sums: &mut Vec<Branch>, target: &State) -> Result<(), AllocError>
    ensures { OnOk result (map seen_branch sums.new.items ≡ map seen_branch sums.old.items ++ record { probability = nought; target = target.now.values; rewards = [] } ∷ []) }
{
    sums.push(Branch {
        weight: Frac::zero(),
        target: copy_state(alloc, target)?,
        rewards: List::new(alloc),
    })?;
    Ok(())
}

/// A key for a state: states with the same key are the same.
pub fn key_of(alloc: Global, state: &State) -> Result<Vec<i64>, AllocError>
    ensures { IfOk result (λ k. k.items ≡ key_of state.now.values) }
{
    let mut key = Vec::new(alloc);
    for value in state.values.as_slice() {
        key.extend_from_slice(&parts_of(*value))?;
    }
    Ok(key)
}

fn parts_of(value: Value) -> [i64; 2]
    ensures { result ≡ parts_of value }
{
    match value {
        Value::Truth(true) => [1, 0],
        Value::Truth(false) => [0, 0],
        Value::Number(x) => [x.num(), x.den()],
    }
}
