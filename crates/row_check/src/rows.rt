// The verdict on rows.

ghost use Rattle.std.specs.Prelude.{◌≡◌, ◌↔◌, ◌+◌, ◌<◌, ◌≤◌, ◌^◌, ◌∷◌, ℕ, IfOk, IsTrue, List, Some, None, MatchResult, drop, false, get_or, length, map, nat_eq, option_copied, take, true, []};
ghost use Rattle.std.specs.List.{All, AllZip, list_any, prefix_len};
ghost use Rattle.process_core.specs.Seen.{seen_branch};
ghost use Rattle.process_core.specs.Process.{EquallyOften};
ghost use Rattle.state_choices.specs.Grouped.{AreGroupsAt};
ghost use Rattle.state_choices.specs.Groups.{of_groups};
ghost use Rattle.state_choices.specs.Open.{open_branch, open_choice};
ghost use Rattle.state_choices.specs.Views.{group_of, sum_of};
ghost use Rattle.row_check.specs.Index.{IsIndex};
ghost use Rattle.row_check.specs.Judging.{Each, Judges};
ghost use Rattle.row_check.specs.Merging.{Keeps, Sums, TargetsListed, choice_of_rows, good_choices};
ghost use Rattle.row_check.specs.Rows.{AreReadRows, JudgesChoices, JudgesChoicesAt, JudgesListed, JudgesRows, JudgesState, RowsDiffer, counts_right, runs, same_choice, start_verdict, target_verdict};
ghost use Rattle.row_check.specs.Walked.{AreSortedFrom, JudgesCombinations, JudgesMerged, KeepsRun, MergesAll, MergesOne, bare_branch, is_faulty};

use crate::counting::equally_often;
use crate::data::{ReadRows, Row, Verdict, Why};
use crate::index::StateIndex;
use crate::merging::MergedChoice;
use bridge_io::{List, Text};
use process_core::{Branch, State, StepFail, Steps, merged, merging_laws};
use state_choices::{Group, GroupedSteps, OpenBranch, OpenChoice, OpenOutcome, open_choices};
use std::alloc::{AllocError, Global};

/// The first failure of rows, or `Yes`.
pub fn judge_rows<S: GroupedSteps>(
    alloc: Global,
    s: &S,
    rows: &ReadRows,
) -> Result<Verdict, AllocError>
    requires { AreReadRows rows.now }
    ensures { IfOk result (Judges (JudgesRows (S.process s.now) rows.now)) }
{
    let states = rows.states.as_slice();
    let mut index = StateIndex::new(alloc);
    match list_states(alloc, s, states, &mut index)? {
        Some(verdict) => return Ok(verdict),
        None => {}
    }
    match judge_start(s, states) {
        Some(verdict) => return Ok(verdict),
        None => {}
    }
    match judge_states(alloc, s, &index, states, rows.rows.as_slice())? {
        Some(verdict) => return Ok(verdict),
        None => {}
    }
    if has_right_counts(rows) {
        Ok(Verdict::Yes)
    } else {
        Ok(Verdict::No(Why::Counts))
    }
}

/// What fails of the list of states; where nothing does, they are in the index.
fn list_states<S: Steps>(
    alloc: Global,
    s: &S,
    states: &[State],
    index: &mut StateIndex,
) -> Result<Option<Verdict>, AllocError>
    requires { IsIndex index.old.numbers [] }
    ensures judged { IfOk result (Each (JudgesListed (S.process s.now) states.now) 0 states.now) }
    ensures index { IfOk result (λ o. o ≡ None → IsIndex index.new.numbers states.now) }
{
    for (i, state) in states.iter().enumerate() {
        if !s.valid(state) {
            return Ok(Some(Verdict::No(Why::Outside(i))));
        }
        if !index.add(alloc, state, i)? {
            return Ok(Some(Verdict::No(Why::Repeated(i))));
        }
    }
    Ok(None)
}

/// What fails of the search for an initial state.
fn judge_start<S: Steps>(s: &S, states: &[State]) -> Option<Verdict>
    ensures { result ≡ start_verdict (S.process s.now) 0 states.now }
{
    for (i, state) in states.iter().enumerate() {
        match s.initial(state) {
            Err(_) => return Some(Verdict::Wide(i)),
            Ok(true) => return None,
            Ok(false) => {}
        }
    }
    Some(Verdict::No(Why::Initial))
}

/// What fails of the choices of the listed states.
fn judge_states<S: GroupedSteps>(
    alloc: Global,
    s: &S,
    index: &StateIndex,
    states: &[State],
    rows: &[Row],
) -> Result<Option<Verdict>, AllocError>
    requires index { IsIndex index.now.numbers states.now }
    requires states { All (λ t. IsTrue ((S.process s.now).is_state t.values)) states.now }
    requires sorted { AreSortedFrom 0 rows.now }
    requires differ { RowsDiffer rows.now }
    ensures { IfOk result (Each (JudgesState (S.process s.now) states.now rows.now) 0 states.now) }
{
    let mut from = 0;
    for (k, state) in states.iter().enumerate() {
        match own_rows(&rows[from..], k, states.len()) {
            Err(i) => return Ok(Some(Verdict::No(Why::Target(from + i)))),
            Ok(count) => {
                match judge_state(alloc, s, index, k, state, &rows[from..from + count])? {
                    Some(verdict) => return Ok(Some(verdict)),
                    None => {}
                }
                from += count;
            }
        }
    }
    Ok(None)
}

/// How many of the rows from here on are of source `k`; or the first of them whose target isn't one of `n` states.
fn own_rows(rest: &[Row], k: usize, n: usize) -> Result<usize, usize>
    ensures { MatchResult result
        (λ c. (c ≤ length rest.now) × (c ≡ prefix_len (λ r. nat_eq r.source k) rest.now) × TargetsListed n (take c rest.now))
        (λ i. (i < length rest.now) × ((j : ℕ) → target_verdict n k j rest.now ≡ Some (Verdict.No (Why.Target (j + i))))) }
{
    for (i, row) in rest.iter().enumerate() {
        if row.source != k {
            return Ok(i);
        }
        if row.target >= n {
            return Err(i);
        }
    }
    Ok(rest.len())
}

/// What fails of the choices of a state, whose rows are these.
fn judge_state<S: GroupedSteps>(
    alloc: Global,
    s: &S,
    index: &StateIndex,
    k: usize,
    state: &State,
    own: &[Row],
) -> Result<Option<Verdict>, AllocError>
    requires state { IsTrue ((S.process s.now).is_state state.now.values) }
    requires differ { RowsDiffer own.now }
    ensures { IfOk result (λ o. (ss : List State) → IsIndex index.now.numbers ss → TargetsListed (length ss) own.now →
        JudgesChoicesAt (S.process s.now) k state.now.values (map (choice_of_rows ss) (runs own.now)) o) }
{
    let evaluated = s.evaluated(alloc, state)?;
    judge_evaluated(alloc, s, index, k, state, &evaluated, own)
}

/// The same, from what commands or edges come out as in the state.
fn judge_evaluated<S: GroupedSteps>(
    alloc: Global,
    s: &S,
    index: &StateIndex,
    k: usize,
    state: &State,
    evaluated: &S::Evaluated,
    own: &[Row],
) -> Result<Option<Verdict>, AllocError>
    requires groups { AreGroupsAt (S.process s.now) state.now.values (S.groups_of s.now evaluated.now) }
    requires differ { RowsDiffer own.now }
    ensures { IfOk result (λ o. (ss : List State) → IsIndex index.now.numbers ss → TargetsListed (length ss) own.now →
        JudgesChoicesAt (S.process s.now) k state.now.values (map (choice_of_rows ss) (runs own.now)) o) }
{
    let groups = s.groups(alloc, evaluated)?;
    judge_groups(alloc, index, k, state, groups.as_slice(), own)
}

/// The same of the choices of groups. No state that they lead to is built yet.
fn judge_groups(
    alloc: Global,
    index: &StateIndex,
    k: usize,
    state: &State,
    groups: &[Group],
    own: &[Row],
) -> Result<Option<Verdict>, AllocError>
    requires { RowsDiffer own.now }
    ensures { IfOk result (λ o. (ss : List State) → IsIndex index.now.numbers ss → TargetsListed (length ss) own.now →
        JudgesCombinations k state.now.values (of_groups (map group_of groups.now)) (map (choice_of_rows ss) (runs own.now)) o) }
{
    match open_choices(alloc, groups) {
        Ok(choices) => judge_choices(alloc, index, k, state, choices.as_slice(), own),
        Err(StepFail::Wide) => Ok(Some(Verdict::Wide(k))),
        Err(StepFail::TooMany) => Ok(Some(Verdict::TooMany(k))),
        Err(StepFail::Memory(e)) => Err(e),
    }
}

fn judge_choices(
    alloc: Global,
    index: &StateIndex,
    k: usize,
    state: &State,
    choices: &[OpenChoice],
    own: &[Row],
) -> Result<Option<Verdict>, AllocError>
    requires { RowsDiffer own.now }
    ensures { IfOk result (λ o. (ss : List State) → IsIndex index.now.numbers ss → TargetsListed (length ss) own.now →
        JudgesChoices k (map (open_choice state.now.values) choices.now) (map (choice_of_rows ss) (runs own.now)) o) }
{
    merging_laws();
    let bad = has_bad(choices);
    match merged_choices(alloc, index, state, choices) {
        Err(StepFail::Memory(e)) => Err(e),
        Err(_) => Ok(Some(Verdict::Wide(k))),
        Ok(model) => judge_merged(alloc, k, bad, &model, own),
    }
}

/// What fails of merged choices; `bad` says that there is a faulty one besides.
fn judge_merged(
    alloc: Global,
    k: usize,
    bad: bool,
    model: &Option<Vec<MergedChoice>>,
    own: &[Row],
) -> Result<Option<Verdict>, AllocError>
    requires { RowsDiffer own.now }
    ensures { IfOk result (JudgesMerged k bad model.now own.now) }
{
    if bad {
        return Ok(Some(Verdict::No(Why::FaultyState(k))));
    }
    match model {
        None => Ok(Some(Verdict::No(Why::Choices(k)))),
        Some(model) => {
            if has_choices(alloc, model.as_slice(), own)? {
                Ok(None)
            } else {
                Ok(Some(Verdict::No(Why::Choices(k))))
            }
        }
    }
}

/// Whether the choices of these rows are the model's, equally often.
fn has_choices(alloc: Global, model: &[MergedChoice], own: &[Row]) -> Result<bool, AllocError>
    requires { RowsDiffer own.now }
    ensures { IfOk result (λ r. (n : ℕ) (ds es : List Sums) → TargetsListed n own.now → AllZip (Keeps n) ds model.now →
        ((ms : List MergedChoice) → AllZip (KeepsRun n) (runs own.now) ms → AllZip (Keeps n) es ms) → IsTrue r ↔ EquallyOften ds es) }
{
    let file = merged_runs(alloc, own)?;
    equally_often(alloc, model, file.as_slice())
}

fn has_bad(choices: &[OpenChoice]) -> bool
    ensures { result ≡ list_any (λ c. is_faulty c.outcome) choices.now }
{
    for choice in choices {
        match &choice.outcome {
            OpenOutcome::Faulty(_) => return true,
            OpenOutcome::Good(_) => {}
        }
    }
    false
}

/// The good choices, merged; none where one leads to a state that isn't listed. The states that a choice leads to are built for
/// that choice alone, and let go once it is merged.
fn merged_choices(
    alloc: Global,
    index: &StateIndex,
    state: &State,
    choices: &[OpenChoice],
) -> Result<Option<Vec<MergedChoice>>, StepFail>
    ensures { (ss : List State) → IsIndex index.now.numbers ss → MergesAll ss (good_choices (map (open_choice state.now.values) choices.now)) result }
{
    let mut all = Vec::new(alloc);
    let mut listed = true;
    for choice in choices {
        let branches = match &choice.outcome {
            OpenOutcome::Good(branches) => branches,
            OpenOutcome::Faulty(_) => continue,
        };
        let one = match merged_at(alloc, index, state, choice, branches) {
            Ok(one) => one,
            Err(fail) => return Err(fail),
        };
        match one {
            Some(one) => match all.push(one) {
                Ok(()) => {}
                Err(e) => return Err(StepFail::Memory(AllocError::from(e))),
            },
            None => {
                listed = false;
                continue;
            }
        }
    }
    if listed { Ok(Some(all)) } else { Ok(None) }
}

/// A good choice of a state, merged.
fn merged_at(
    alloc: Global,
    index: &StateIndex,
    state: &State,
    choice: &OpenChoice,
    branches: &List<OpenBranch>,
) -> Result<Option<MergedChoice>, StepFail>
    ensures { (ss : List State) → IsIndex index.now.numbers ss → MergesOne ss (record {
      label = option_copied choice.now.label;
      branches = map (open_branch state.now.values (map sum_of choice.now.rewards.now)) branches.now;
    }) result }
{
    match bare_branches(alloc, state, branches.as_slice()) {
        Ok(bare) => merged_choice(alloc, index, choice.label, &bare),
        Err(e) => Err(StepFail::Memory(e)),
    }
}

/// The branches of a choice at a state, without their rewards.
fn bare_branches(
    alloc: Global,
    state: &State,
    branches: &[OpenBranch],
) -> Result<List<Branch>, AllocError>
    ensures { IfOk result (λ bs. map seen_branch bs ≡ map (bare_branch state.now.values) branches.now) }
{
    let mut all = List::with_capacity(alloc, branches.len())?;
    for branch in branches {
        all.push(bare_branch(alloc, state, branch)?)?;
    }
    Ok(all)
}

fn bare_branch(alloc: Global, state: &State, branch: &OpenBranch) -> Result<Branch, AllocError>
    ensures { IfOk result (λ b. seen_branch b ≡ bare_branch state.now.values branch.now) }
{
    let target = branch.target(alloc, state)?;
    Ok(Branch {
        weight: branch.weight,
        target,
        rewards: List::new(alloc),
    })
}

fn merged_choice(
    alloc: Global,
    index: &StateIndex,
    label: Option<&Text>,
    branches: &List<Branch>,
) -> Result<Option<MergedChoice>, StepFail>
    ensures { (ss : List State) → IsIndex index.now.numbers ss → MergesOne ss (record { label = option_copied label.entry; branches = map seen_branch branches.now }) result }
{
    match merged(alloc, branches) {
        Ok(merged) => match MergedChoice::of_branches(alloc, index, label, &merged) {
            Ok(one) => Ok(one),
            Err(e) => Err(StepFail::Memory(e)),
        },
        Err(fail) => Err(fail),
    }
}

/// The choices of a state's rows.
fn merged_runs(alloc: Global, own: &[Row]) -> Result<Vec<MergedChoice>, AllocError>
    requires { RowsDiffer own.now }
    ensures { IfOk result (λ v. (n : ℕ) → TargetsListed n own.now → AllZip (KeepsRun n) (runs own.now) v.items) }
{
    let mut all = Vec::new(alloc);
    let mut from = 0;
    while from < own.len() {
        let to = from + run_len(&own[from..]);
        all.push(MergedChoice::of_rows(alloc, &own[from..to])?)?;
        from = to;
    }
    Ok(all)
}

/// How many rows there are of the first row's choice.
pub fn run_len(rest: &[Row]) -> usize
    requires { 0 < length rest.now }
    ensures within { result ≤ length rest.now }
    ensures some { 0 < result }
    ensures same { (d : Row) → All (λ q. same_choice (get_or rest.now 0 d) q ≡ true) (take result rest.now) }
    ensures runs { runs rest.now ≡ take result rest.now ∷ runs (drop result rest.now) }
{
    let first = &rest[0];
    for (i, row) in rest.iter().enumerate() {
        if !same_choice(first, row) {
            return i;
        }
    }
    rest.len()
}

pub(crate) fn same_choice(a: &Row, b: &Row) -> bool
    ensures { result ≡ same_choice a.now b.now }
{
    a.source == b.source && a.choice == b.choice
}

/// Whether the first line's counts are those of the states, the choices and the rows.
fn has_right_counts(rows: &ReadRows) -> bool
    ensures { result ≡ counts_right rows.now }
{
    rows.said_states == rows.states.len() as u64
        && rows.said_choices == count_runs(rows.rows.as_slice()) as u64
        && rows.said_transitions == rows.rows.len() as u64
}

fn count_runs(rows: &[Row]) -> usize
    ensures { result ≡ length (runs rows.now) }
{
    let mut count = 0;
    let mut from = 0;
    while from < rows.len() {
        from += run_len(&rows[from..]);
        count += 1;
    }
    count
}
