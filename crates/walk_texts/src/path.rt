// What is written of a walk, and why it goes no further.

ghost use Rattle.std.specs.Prelude.{◌≡◌, ◌++◌, OnOk, IfOk};
ghost use Rattle.std.specs.List.{All, flat_map};
ghost use Rattle.walk_texts.specs.Jobs.{IsNarrowStep, IsNarrowWalk, ended, report_of};
ghost use Rattle.walk_texts.specs.Lines.{path_text, step_line};
ghost use Rattle.walk_texts.specs.Stops.{stop_line};

use crate::parts::{kinds_text, push_label, push_state};
use crate::report::Report;
use crate::state::push_head;
use bridge_io::{List, Text};
use process_core::Steps;
use std::alloc::{AllocError, Global};
use step_sim::{Step, Stop, Walk};

/// Writes the line of a step.
fn push_step(alloc: Global, out: &mut Vec<u8>, step: &Step) -> Result<(), AllocError>
    ensures text { OnOk result (out.new.items ≡ out.old.items ++ step_line step.now) }
    ensures narrow { OnOk result (IsNarrowStep step.now) }
{
    push_label(alloc, out, &step.label)?;
    out.extend_from_slice(b" ")?;
    push_state(out, &step.target)?;
    out.extend_from_slice(b"\n")
}

/// Writes the lines of steps.
fn push_steps(alloc: Global, out: &mut Vec<u8>, steps: &[Step]) -> Result<(), AllocError>
    ensures text { OnOk result (out.new.items ≡ out.old.items ++ flat_map step_line steps.now) }
    ensures narrow { OnOk result (All IsNarrowStep steps.now) }
{
    for step in steps {
        push_step(alloc, out, step)?;
    }
    Ok(())
}

/// The text of a walk.
fn path_text<S: Steps>(alloc: Global, s: &S, walk: &Walk) -> Result<List<u8>, AllocError>
    ensures text { IfOk result (λ t. t ≡ path_text (S.process s.now) walk.now.first.values walk.now.steps) }
    ensures narrow { OnOk result (IsNarrowWalk walk.now) }
{
    let mut out = Vec::new(alloc);
    push_head(alloc, &mut out, s, &walk.first)?;
    push_steps(alloc, &mut out, walk.steps.as_slice())?;
    Ok(List::from_vec(out))
}

/// The line on why a walk of so many steps goes no further, empty where it came to its end.
pub(crate) fn stop_line(alloc: Global, k: usize, stop: Stop) -> Result<Text, AllocError>
    ensures { IfOk result (λ t. t ≡ stop_line k stop) }
{
    let line = match stop {
        Stop::Done | Stop::Deadlock => Ok(String::new(alloc)),
        Stop::NoChoice(i) => format!(in alloc; "bridge: stopped at step {k}: choice {i}\n"),
        Stop::NoBranch(j) => format!(in alloc; "bridge: stopped at step {k}: branch {j}\n"),
        Stop::Faulty(bad) => {
            let kinds = kinds_text(bad);
            format!(in alloc; "bridge: stopped at step {k}: bad {kinds}\n")
        }
        Stop::Wide => format!(in alloc; "bridge: wide at step {k}\n"),
        Stop::TooMany => format!(in alloc; "bridge: too many at step {k}\n"),
    };
    Text::from_string(line?)
}

/// How a walk of so many steps ends by why it goes no further.
fn ended(alloc: Global, path: List<u8>, k: usize, stop: Stop) -> Result<Report, AllocError>
    ensures { IfOk result (λ r. r ≡ ended path (stop_line k stop) stop) }
{
    let line = stop_line(alloc, k, stop)?;
    Ok(match stop {
        Stop::Done | Stop::Deadlock => Report::Done(path),
        Stop::NoChoice(_) | Stop::NoBranch(_) | Stop::Faulty(_) => Report::Stopped(path, line),
        Stop::Wide | Stop::TooMany => Report::Excess(path, line),
    })
}

/// What is written of a walk.
pub(crate) fn report_of<S: Steps>(alloc: Global, s: &S, walk: &Walk) -> Result<Report, AllocError>
    ensures report { IfOk result (λ r. r ≡ report_of (S.process s.now) walk.now) }
    ensures narrow { OnOk result (IsNarrowWalk walk.now) }
{
    let path = path_text(alloc, s, walk)?;
    ended(alloc, path, walk.steps.len(), walk.stop)
}
