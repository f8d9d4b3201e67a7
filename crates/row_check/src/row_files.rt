// Files of states and files of rows read.

ghost use Rattle.std.specs.Prelude.{Some, None, if◌then◌else◌, ◌≡◌, ◌≤◌, ◌&&◌, ◌↔◌, ◌⊎◌, ◌∷◌, ◌++◌, [], ℕ, List, IfOk, IsTrue, MatchOption, false, length, nat_eq, not, slice_index};
ghost use Rattle.std.specs.List.{list_any};
ghost use Rattle.std.specs.Ordering.{nat_cmp};
ghost use Rattle.std.specs.BTreeSet.{contains};
ghost use Rattle.row_check.specs.Checks.{ReadsRows};
ghost use Rattle.row_check.specs.Forms.{AreCountsFirst, IsCounts, IsLabelPart, IsNumbered, IsRowLine, IsRowText, IsStateLine, MayCome, MayFollow, Reads, ReadsItems, ReadsRowsOf, ReadsStates, rows_said};
ghost use Rattle.row_check.specs.Lines.{AreRead, AreReadAs, ReadsText, lines_at};
ghost use Rattle.row_check.specs.Rows.{Follows, same_choice};
ghost use Rattle.row_check.specs.Targets.{KeepsTargets, is_of_last_choice};

use crate::data::{Counts, ReadRows, Row, RowsRefused};
use crate::header::after_header;
use crate::lines::{LineForm, broken, line_at, read_lines};
use crate::rows::same_choice;
use crate::texts::{
    is_number, name_of, number_before_space, number_of, probability_of, split_at_first, state_of,
};
use bridge_io::{List, Refused, Text};
use process_core::{State, Steps, same_label};
use process_texts::text_laws;
use std::alloc::{AllocError, Global};
use std::collections::BTreeSet;

/// The rows that two files hold: the process's header and lines of `i:` and a state, i from 0; and a line of three counts and
/// lines of a source, a choice, a target, a probability and maybe a label. `States` exactly where a line of the first file
/// breaks its form, and `Rows` exactly where only one of the second does, at the first such line.
pub fn read_rows<S: Steps>(
    alloc: Global,
    s: &S,
    states: &[u8],
    rows: &[u8],
) -> Result<ReadRows, RowsRefused>
    ensures { ReadsRows (S.process s.now) states.now rows.now result }
{
    let states = match read_states(alloc, s, states) {
        Ok(states) => states,
        Err(Refused::Memory(e)) => return Err(RowsRefused::Memory(e)),
        Err(Refused::At(fault)) => return Err(RowsRefused::States(fault)),
    };
    match read_rows_of(alloc, states, rows) {
        Ok(rows) => Ok(rows),
        Err(Refused::Memory(e)) => Err(RowsRefused::Memory(e)),
        Err(Refused::At(fault)) => Err(RowsRefused::Rows(fault)),
    }
}

/// The states that a file lists.
fn read_states<S: Steps>(alloc: Global, s: &S, bytes: &[u8]) -> Result<List<State>, Refused>
    ensures { Reads (ReadsStates (S.process s.now) bytes.now) result }
{
    match after_header(alloc, s, bytes) {
        Ok(next) => read_state_lines(alloc, bytes, next),
        Err(fail) => Err(fail),
    }
}

fn read_state_lines(alloc: Global, bytes: &[u8], at: usize) -> Result<List<State>, Refused>
    requires { at ≤ length bytes.now }
    ensures { Reads (AreRead IsStateLine (lines_at bytes.now at)) result }
{
    match read_lines(alloc, &mut StateForm, 0, bytes, at) {
        Ok(states) => Ok(List::from_vec(states)),
        Err(fail) => Err(fail),
    }
}

/// The rows of these states.
fn read_rows_of(alloc: Global, states: List<State>, bytes: &[u8]) -> Result<ReadRows, Refused>
    ensures { Reads (ReadsRowsOf states bytes.now) result }
{
    match read_counts(bytes) {
        Ok((counts, next)) => rows_behind(alloc, states, counts, bytes, next),
        Err(fail) => Err(fail),
    }
}

/// The counts of the first line, and where the next one begins.
fn read_counts(bytes: &[u8]) -> Result<(Counts, usize), Refused>
    ensures { AreCountsFirst bytes.now result }
{
    match line_at(bytes, 0) {
        None => Err(broken(0)),
        Some((line, next)) => match counts_of(line) {
            Some(counts) => Ok((counts, next)),
            None => Err(broken(0)),
        },
    }
}

/// The rows behind the counts.
fn rows_behind(
    alloc: Global,
    states: List<State>,
    counts: Counts,
    bytes: &[u8],
    at: usize,
) -> Result<ReadRows, Refused>
    requires { at ≤ length bytes.now }
    ensures { Reads (AreReadAs (IsRowLine (length states)) (rows_said states counts) (lines_at bytes.now at)) result }
{
    match read_row_lines(alloc, states.len(), bytes, at) {
        Ok(rows) => Ok(ReadRows {
            states,
            rows: List::from_vec(rows),
            said_states: counts.states,
            said_choices: counts.choices,
            said_transitions: counts.transitions,
        }),
        Err(fail) => Err(fail),
    }
}

fn read_row_lines(
    alloc: Global,
    listed: usize,
    bytes: &[u8],
    at: usize,
) -> Result<Vec<Row>, Refused>
    requires { at ≤ length bytes.now }
    ensures { ReadsItems (AreRead (IsRowLine listed) (lines_at bytes.now at)) result }
{
    let mut form = RowForm {
        targets: BTreeSet::new(alloc),
    };
    read_lines(alloc, &mut form, listed, bytes, at)
}

/// The counts that a line gives.
fn counts_of(line: &[u8]) -> Option<Counts>
    ensures { ReadsText (IsCounts line.now) result }
{
    let (states, rest) = match number_before_space(line) {
        Some(parts) => parts,
        None => return None,
    };
    let (choices, rest) = match number_before_space(rest) {
        Some(parts) => parts,
        None => return None,
    };
    let transitions = match number_of(rest) {
        Some(transitions) => transitions,
        None => return None,
    };
    Some(Counts {
        states: states as u64,
        choices: choices as u64,
        transitions: transitions as u64,
    })
}

/// Lines of states: `i:` and a state.
#[derive(Drop)]
struct StateForm;

impl LineForm<State> for StateForm {
    ghost next = { λ n. IsStateLine };

    ghost keeps = { λ f before. Unit {0} };

    fn read(
        &mut self,
        alloc: Global,
        _listed: usize,
        before: &[State],
        line: &[u8],
    ) -> Result<Option<State>, AllocError> {
        let (number, state) = match split_at_first(line, b':') {
            Some(parts) => parts,
            None => return Ok(None),
        };
        if !is_number(number, before.len()) {
            return Ok(None);
        }
        state_of(alloc, state)
    }
}

/// Lines of rows. It keeps the targets of the last row's choice.
#[derive(Drop)]
struct RowForm {
    targets: BTreeSet<usize>,
}

impl LineForm<Row> for RowForm {
    ghost next = { λ n. IsRowLine n };

    ghost keeps = { λ f before. KeepsTargets f.targets before };

    fn read(
        &mut self,
        alloc: Global,
        listed: usize,
        before: &[Row],
        line: &[u8],
    ) -> Result<Option<Row>, AllocError> {
        text_laws();
        match read_row(alloc, line)? {
            None => Ok(None),
            Some(row) => keep_row(&mut self.targets, listed, before, row),
        }
    }
}

/// A row that may come behind these; its target is kept.
fn keep_row(
    targets: &mut BTreeSet<usize>,
    listed: usize,
    before: &[Row],
    row: Row,
) -> Result<Option<Row>, AllocError>
    requires { KeepsTargets targets.old before.now }
    ensures row { IfOk result (λ o. MatchOption o (¬ MayCome listed before.now row) (λ q. (q ≡ row) × MayCome listed before.now row)) }
    ensures keeps { IfOk result (λ o. (it : Row) → o ≡ Some it → KeepsTargets targets.new (before.now ++ it ∷ [])) }
{
    let may = may_come(targets, listed, before, &row)?;
    Ok(row_if(may, row))
}

fn row_if(may: bool, row: Row) -> Option<Row>
    ensures { result ≡ (if may then Some row else None) }
{
    if may { Some(row) } else { None }
}

/// Whether a row may come behind these. Then its target is kept.
fn may_come(
    targets: &mut BTreeSet<usize>,
    listed: usize,
    before: &[Row],
    row: &Row,
) -> Result<bool, AllocError>
    requires { KeepsTargets targets.old before.now }
    ensures may { IfOk result (λ r. IsTrue r ↔ MayCome listed before.now row.now) }
    ensures keeps { IfOk result (λ r. IsTrue r → KeepsTargets targets.new (before.now ++ row.now ∷ [])) }
{
    if row.source >= listed {
        return Ok(false);
    }
    if !may_follow(before, row) {
        return Ok(false);
    }
    is_next_target(targets, before, row)
}

/// The row that a line spells.
fn read_row(alloc: Global, line: &[u8]) -> Result<Option<Row>, AllocError>
    ensures { IfOk result (ReadsText (IsRowText line.now)) }
{
    let (source, choice, target, rest) = match three_numbers(line) {
        Some(parts) => parts,
        None => return Ok(None),
    };
    let (weight, label) = split_before_space(rest);
    let weight = match probability_of(weight) {
        Some(weight) => weight,
        None => return Ok(None),
    };
    match label_part(alloc, label)? {
        Some(label) => Ok(Some(Row {
            source,
            choice,
            target,
            weight,
            label,
        })),
        None => Ok(None),
    }
}

/// The numbers of a row's source, choice and target, and what stands behind them.
fn three_numbers(line: &[u8]) -> Option<(usize, usize, usize, &[u8])>
    ensures { MatchOption result ((a b c : ℕ) (rest : List ℕ) → ¬ IsNumbered line.now a b c rest) (λ p. IsNumbered line.now p.0 p.1 p.2 p.3.now) }
{
    let (source, rest) = match number_before_space(line) {
        Some(parts) => parts,
        None => return None,
    };
    let (choice, rest) = match number_before_space(rest) {
        Some(parts) => parts,
        None => return None,
    };
    match number_before_space(rest) {
        Some((target, rest)) => Some((source, choice, target, rest)),
        None => None,
    }
}

/// What stands before the first space, and from it on.
fn split_before_space(text: &[u8]) -> (&[u8], &[u8])
    ensures parts { text.now ≡ result.0.now ++ result.1.now }
    ensures apart { list_any (nat_eq 32) result.0.now ≡ false }
    ensures space { (result.1.now ≡ []) ⊎ (slice_index result.1.now 0 ≡ 32) }
{
    for (i, b) in text.iter().enumerate() {
        if *b == b' ' {
            return (&text[..i], &text[i..]);
        }
    }
    (text, &text[text.len()..])
}

/// The label that stands behind a probability, if one does.
fn label_part(alloc: Global, text: &[u8]) -> Result<Option<Option<Text>>, AllocError>
    ensures { IfOk result (ReadsText (IsLabelPart text.now)) }
{
    match text.split_first() {
        None => Ok(Some(None)),
        Some((b' ', label)) => match name_of(alloc, label)? {
            Some(name) => Ok(Some(Some(name))),
            None => Ok(None),
        },
        Some(_) => Ok(None),
    }
}

/// Whether a row may come behind these, by its source, its choice and its label.
fn may_follow(before: &[Row], row: &Row) -> bool
    ensures { IsTrue result ↔ MayFollow before.now row.now }
{
    match before.last() {
        None => row.choice == 0,
        Some(last) => follows(last, row),
    }
}

fn follows(a: &Row, b: &Row) -> bool
    ensures { IsTrue result ↔ Follows a.now b.now }
{
    if a.source != b.source {
        a.source < b.source && b.choice == 0
    } else if a.choice == b.choice {
        same_label(&a.label, &b.label)
    } else {
        b.choice > 0 && b.choice - 1 == a.choice
    }
}

/// Whether no row before has this one's source, choice and target. Then its target is kept.
fn is_next_target(
    targets: &mut BTreeSet<usize>,
    before: &[Row],
    row: &Row,
) -> Result<bool, AllocError>
    requires keeps { KeepsTargets targets.old before.now }
    requires follows { MayFollow before.now row.now }
    ensures new { IfOk result (λ r. r ≡ not (list_any (λ q. same_choice q row.now && nat_eq q.target row.now.target) before.now)) }
    ensures keeps { IfOk result (λ r. IsTrue r → KeepsTargets targets.new (before.now ++ row.now ∷ [])) }
{
    forget_others(targets, before, row);
    match targets.insert(row.target) {
        Ok(is_new) => Ok(is_new),
        Err(e) => Err(AllocError::from(e)),
    }
}

/// Where a row begins another choice, the targets of the one before are let go.
fn forget_others(targets: &mut BTreeSet<usize>, before: &[Row], row: &Row)
    ensures { (t : ℕ) → contains nat_cmp targets.new t ≡ (is_of_last_choice before.now row.now && contains nat_cmp targets.old t) }
{
    if !is_of_last_choice(before, row) {
        targets.clear();
    }
}

/// Whether a row has the choice of the last of these.
fn is_of_last_choice(before: &[Row], row: &Row) -> bool
    ensures { result ≡ is_of_last_choice before.now row.now }
{
    match before.last() {
        None => false,
        Some(last) => same_choice(last, row),
    }
}
