// Files of paths read.

ghost use Rattle.std.specs.Prelude.{◌≡◌, ◌≤◌, ◌++◌, ◌∷◌, [], IfOk, OnOk, length, map};
ghost use Rattle.row_check.specs.Forms.{AddsSteps, IsStepLabel, IsStepLine, Reads, ReadsFirst, ReadsPath, path_of};
ghost use Rattle.row_check.specs.Lines.{AreReadAs, ReadsText, lines_at};

use crate::data::{PathStep, ReadPath};
use crate::header::after_header;
use crate::lines::{LineForm, broken, line_at, read_lines};
use crate::texts::{name_of, split_at_last_space, state_of};
use bridge_io::{List, Refused, Text};
use process_core::{State, Steps};
use std::alloc::{AllocError, Global};

/// The path that a file holds: the process's header, a state, and lines of a label, a space and a state. `At` exactly where a
/// line breaks this form, at the first such line.
pub fn read_path<S: Steps>(alloc: Global, s: &S, path: &[u8]) -> Result<ReadPath, Refused>
    ensures { Reads (ReadsPath (S.process s.now) path.now) result }
{
    match after_header(alloc, s, path) {
        Ok(next) => read_first(alloc, path, next),
        Err(fail) => Err(fail),
    }
}

/// The first state and the steps, from the line that begins at `at`.
fn read_first(alloc: Global, bytes: &[u8], at: usize) -> Result<ReadPath, Refused>
    requires { at ≤ length bytes.now }
    ensures { Reads (ReadsFirst (length bytes.now) (lines_at bytes.now at)) result }
{
    match line_at(bytes, at) {
        None => Err(broken(at)),
        Some((line, next)) => match state_of(alloc, line) {
            Ok(Some(first)) => read_steps(alloc, first, bytes, next),
            Ok(None) => Err(broken(at)),
            Err(e) => Err(Refused::Memory(e)),
        },
    }
}

/// The steps, behind the first state.
fn read_steps(alloc: Global, first: State, bytes: &[u8], at: usize) -> Result<ReadPath, Refused>
    requires { at ≤ length bytes.now }
    ensures { Reads (AreReadAs IsStepLine (path_of first) (lines_at bytes.now at)) result }
{
    let mut path = start_path(alloc, first)?;
    match add_lines(alloc, &mut path, bytes, at) {
        Ok(()) => Ok(path),
        Err(fail) => Err(fail),
    }
}

/// Adds the steps of the lines that begin at `at` or behind it.
fn add_lines(alloc: Global, path: &mut ReadPath, bytes: &[u8], at: usize) -> Result<(), Refused>
    requires { at ≤ length bytes.now }
    ensures { AddsSteps (lines_at bytes.now at) path.old path.new result }
{
    match read_lines(alloc, &mut StepForm, 0, bytes, at) {
        Err(fail) => Err(fail),
        Ok(steps) => match add_steps(path, steps) {
            Ok(()) => Ok(()),
            Err(e) => Err(Refused::Memory(e)),
        },
    }
}

/// A path of one state.
fn start_path(alloc: Global, first: State) -> Result<ReadPath, AllocError>
    ensures { IfOk result (λ p. p ≡ path_of first []) }
{
    let mut states = List::new(alloc);
    states.push(first)?;
    Ok(ReadPath {
        states,
        labels: List::new(alloc),
    })
}

fn add_steps(path: &mut ReadPath, steps: Vec<PathStep>) -> Result<(), AllocError>
    ensures states { OnOk result (path.new.states ≡ path.old.states ++ map (λ s. s.state) steps.items) }
    ensures labels { OnOk result (path.new.labels ≡ path.old.labels ++ map (λ s. s.label) steps.items) }
{
    for step in steps {
        add_step(path, step)?;
    }
    Ok(())
}

fn add_step(path: &mut ReadPath, step: PathStep) -> Result<(), AllocError>
    ensures states { OnOk result (path.new.states ≡ path.old.states ++ step.state ∷ []) }
    ensures labels { OnOk result (path.new.labels ≡ path.old.labels ++ step.label ∷ []) }
{
    path.states.push(step.state)?;
    path.labels.push(step.label)
}

/// Lines of steps: a label, or `-`, and a state behind the last space.
#[derive(Drop)]
struct StepForm;

impl LineForm<PathStep> for StepForm {
    ghost next = { λ n. IsStepLine };

    ghost keeps = { λ f before. Unit {0} };

    fn read(
        &mut self,
        alloc: Global,
        _listed: usize,
        _before: &[PathStep],
        line: &[u8],
    ) -> Result<Option<PathStep>, AllocError> {
        let (label, state) = match split_at_last_space(line) {
            Some(parts) => parts,
            None => return Ok(None),
        };
        let label = match step_label(alloc, label)? {
            Some(label) => label,
            None => return Ok(None),
        };
        match state_of(alloc, state)? {
            Some(state) => Ok(Some(PathStep { label, state })),
            None => Ok(None),
        }
    }
}

/// The label of a step, which `-` says that it has none.
fn step_label(alloc: Global, text: &[u8]) -> Result<Option<Option<Text>>, AllocError>
    ensures { IfOk result (ReadsText (IsStepLabel text.now)) }
{
    if text == b"-".as_slice() {
        return Ok(Some(None));
    }
    match name_of(alloc, text)? {
        Some(name) => Ok(Some(Some(name))),
        None => Ok(None),
    }
}
