// What is written of one state.

ghost use Rattle.std.specs.Prelude.{◌≡◌, ◌++◌, OnOk, IfOk, IsTrue, false, length, map};
ghost use Rattle.std.specs.List.{flat_map, list_any};
ghost use Rattle.process_core.specs.Instance.{numbered};
ghost use Rattle.process_core.specs.Answers.{Answers, only_wide};
ghost use Rattle.process_core.specs.Seen.{seen_branch, seen_choice, seen_outcome};
ghost use Rattle.process_texts.specs.Given.{is_wide_value};
ghost use Rattle.walk_texts.specs.Lines.{branch_line, choice_lines, fraction_or_undef, head_lines, mark_line, mark_lines, marked_text, outcome_text, reward_text, show_text, truth_or_undef};
ghost use Rattle.walk_texts.specs.Jobs.{show_excess};

use crate::parts::{kinds_text, push_fraction, push_label, push_name, push_number, push_state};
use bridge_io::List;
use frac_core::Frac;
use process_core::{Branch, Choice, Mark, Outcome, State, StepFail, Steps};
use process_texts::header_text;
use std::alloc::{AllocError, Global};

/// Writes the header and the state below it.
pub(crate) fn push_head<S: Steps>(
    alloc: Global,
    out: &mut Vec<u8>,
    s: &S,
    state: &State,
) -> Result<(), AllocError>
    ensures text { OnOk result (out.new.items ≡ out.old.items ++ head_lines (S.process s.now) state.now.values) }
    ensures narrow { OnOk result (list_any is_wide_value state.now.values ≡ false) }
{
    let header = header_text(alloc, s)?;
    out.extend_from_slice(header.as_str().as_bytes())?;
    out.extend_from_slice(b"\n")?;
    push_state(out, state)?;
    out.extend_from_slice(b"\n")
}

/// Writes a truth value, or that it is undefined.
fn push_truth(out: &mut Vec<u8>, truth: Option<bool>) -> Result<(), AllocError>
    ensures { OnOk result (out.new.items ≡ out.old.items ++ truth_or_undef truth) }
{
    match truth {
        Some(true) => out.extend_from_slice(b"true"),
        Some(false) => out.extend_from_slice(b"false"),
        None => out.extend_from_slice(b"undef"),
    }
}

/// Writes a reward, or that it is undefined.
fn push_reward(out: &mut Vec<u8>, reward: Option<Frac>) -> Result<(), AllocError>
    ensures { OnOk result (out.new.items ≡ out.old.items ++ fraction_or_undef reward) }
{
    match reward {
        Some(x) => push_fraction(out, x),
        None => out.extend_from_slice(b"undef"),
    }
}

/// Writes the line of a mark.
fn push_mark(alloc: Global, out: &mut Vec<u8>, mark: Mark, name: &str) -> Result<(), AllocError>
    ensures { OnOk result (out.new.items ≡ out.old.items ++ mark_line mark name.now) }
{
    match mark {
        Mark::Truth(truth) => {
            out.extend_from_slice(b"label ")?;
            push_name(alloc, out, name)?;
            out.extend_from_slice(b" ")?;
            push_truth(out, truth)?;
        }
        Mark::Number(reward) => {
            out.extend_from_slice(b"reward ")?;
            push_name(alloc, out, name)?;
            out.extend_from_slice(b" ")?;
            push_reward(out, reward)?;
        }
    }
    out.extend_from_slice(b"\n")
}

/// Writes the marks, each under its name.
fn push_marks<S: Steps>(
    alloc: Global,
    out: &mut Vec<u8>,
    s: &S,
    marks: &[Mark],
) -> Result<(), AllocError>
    requires { length marks.now ≡ length (S.process s.now).mark_names }
    ensures { OnOk result (out.new.items ≡ out.old.items ++ mark_lines marks.now (S.process s.now).mark_names) }
{
    for (i, mark) in marks.iter().enumerate() {
        let name = s.mark_name(alloc, i)?;
        push_mark(alloc, out, *mark, name.as_str())?;
    }
    Ok(())
}

/// Writes rewards, each behind a space.
fn push_rewards(out: &mut Vec<u8>, rewards: &[Frac]) -> Result<(), AllocError>
    ensures { OnOk result (out.new.items ≡ out.old.items ++ flat_map reward_text rewards.now) }
{
    for reward in rewards {
        out.extend_from_slice(b" ")?;
        push_fraction(out, *reward)?;
    }
    Ok(())
}

/// Writes the line of a branch.
fn push_branch(out: &mut Vec<u8>, branch: &Branch) -> Result<(), AllocError>
    ensures { OnOk result (out.new.items ≡ out.old.items ++ branch_line (seen_branch branch.now)) }
{
    out.extend_from_slice(b"  ")?;
    push_fraction(out, branch.weight)?;
    out.extend_from_slice(b" ")?;
    push_state(out, &branch.target)?;
    push_rewards(out, branch.rewards.as_slice())?;
    out.extend_from_slice(b"\n")
}

/// Writes the lines of branches.
fn push_branches(out: &mut Vec<u8>, branches: &[Branch]) -> Result<(), AllocError>
    ensures { OnOk result (out.new.items ≡ out.old.items ++ flat_map branch_line (map seen_branch branches.now)) }
{
    for branch in branches {
        push_branch(out, branch)?;
    }
    Ok(())
}

/// Writes the rest of a choice's line, and the lines of its branches.
fn push_outcome(out: &mut Vec<u8>, outcome: &Outcome) -> Result<(), AllocError>
    ensures { OnOk result (out.new.items ≡ out.old.items ++ outcome_text (seen_outcome outcome.now)) }
{
    match outcome {
        Outcome::Good(branches) => {
            out.extend_from_slice(b" good\n")?;
            push_branches(out, branches.as_slice())
        }
        Outcome::Faulty(bad) => {
            out.extend_from_slice(b" bad ")?;
            out.extend_from_slice(kinds_text(*bad).as_bytes())?;
            out.extend_from_slice(b"\n")
        }
    }
}

/// Writes the lines of the choice of a number.
fn push_choice(
    alloc: Global,
    out: &mut Vec<u8>,
    i: usize,
    choice: &Choice,
) -> Result<(), AllocError>
    ensures { OnOk result (out.new.items ≡ out.old.items ++ choice_lines i (seen_choice choice.now)) }
{
    out.extend_from_slice(b"choice ")?;
    push_number(out, i)?;
    out.extend_from_slice(b" ")?;
    push_label(alloc, out, &choice.label)?;
    push_outcome(out, &choice.outcome)
}

/// Writes the choices, numbered from 0.
fn push_choices(alloc: Global, out: &mut Vec<u8>, choices: &[Choice]) -> Result<(), AllocError>
    ensures { OnOk result (out.new.items ≡ out.old.items ++ numbered choice_lines 0 (map seen_choice choices.now)) }
{
    for (i, choice) in choices.iter().enumerate() {
        push_choice(alloc, out, i, choice)?;
    }
    Ok(())
}

/// The text of a state with these marks and choices.
fn text_of<S: Steps>(
    alloc: Global,
    s: &S,
    state: &State,
    marks: &[Mark],
    choices: &[Choice],
) -> Result<List<u8>, AllocError>
    requires { length marks.now ≡ length (S.process s.now).mark_names }
    ensures { IfOk result (λ t. t ≡ marked_text (S.process s.now) state.now.values marks.now (map seen_choice choices.now)) }
{
    let mut out = Vec::new(alloc);
    push_head(alloc, &mut out, s, state)?;
    push_marks(alloc, &mut out, s, marks)?;
    push_choices(alloc, &mut out, choices)?;
    Ok(List::from_vec(out))
}

/// The text of a state with these choices, or that a mark is wide.
fn marked_text<S: Steps>(
    alloc: Global,
    s: &S,
    state: &State,
    choices: &[Choice],
) -> Result<List<u8>, StepFail>
    requires { IsTrue ((S.process s.now).is_state state.now.values) }
    ensures { Answers (only_wide ((S.process s.now).has_wide_mark state.now.values))
        (λ t. t ≡ marked_text (S.process s.now) state.now.values ((S.process s.now).marks state.now.values) (map seen_choice choices.now)) result }
{
    let marks = s.marks(alloc, state)?;
    Ok(text_of(alloc, s, state, marks.as_slice(), choices)?)
}

/// What is shown of a state, or what passes a bound there: wide guards, then too many choices, then every other wide value.
pub(crate) fn show_text<S: Steps>(alloc: Global, s: &S, state: &State) -> Result<List<u8>, StepFail>
    requires { IsTrue ((S.process s.now).is_state state.now.values) }
    ensures { Answers (show_excess (S.process s.now) state.now.values) (λ t. t ≡ show_text (S.process s.now) state.now.values) result }
{
    match s.choices(alloc, state) {
        Ok(choices) => marked_text(alloc, s, state, choices.as_slice()),
        Err(fail) => Err(fail),
    }
}
