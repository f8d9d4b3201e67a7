// The verdict on a path.

ghost use Rattle.std.specs.Prelude.{◌≡◌, ◌<◌, ◌^◌, suc, IfOk, IsTrue, length};
ghost use Rattle.row_check.specs.Judging.{Judges};
ghost use Rattle.row_check.specs.Paths.{JudgesPath, JudgesStep};

use crate::data::{ReadPath, Verdict, Why};
use bridge_io::Text;
use process_core::{State, StepFail};
use state_choices::{GroupedSteps, has_step};
use std::alloc::{AllocError, Global};

/// The first failure of a path, or `Yes`.
pub fn judge_path<S: GroupedSteps>(
    alloc: Global,
    s: &S,
    path: &ReadPath,
) -> Result<Verdict, AllocError>
    requires { length path.now.states ≡ suc (length path.now.labels) }
    ensures { IfOk result (Judges (JudgesPath (S.process s.now) path.now)) }
{
    let states = path.states.as_slice();
    match s.initial(&states[0]) {
        Err(_) => return Ok(Verdict::Wide(0)),
        Ok(false) => return Ok(Verdict::No(Why::Step(0))),
        Ok(true) => {}
    }
    for (k, label) in path.labels.as_slice().iter().enumerate() {
        match judge_step(alloc, s, k, &states[k], label, &states[k + 1])? {
            Some(verdict) => return Ok(verdict),
            None => {}
        }
    }
    Ok(Verdict::Yes)
}

/// What fails of the step from the state after `k` steps.
fn judge_step<S: GroupedSteps>(
    alloc: Global,
    s: &S,
    k: usize,
    from: &State,
    label: &Option<Text>,
    to: &State,
) -> Result<Option<Verdict>, AllocError>
    requires state { IsTrue ((S.process s.now).is_state from.now.values) }
    requires small { k < 2 ^ 63 }
    ensures { IfOk result (JudgesStep (S.process s.now) k from.now.values label.now to.now.values) }
{
    match has_step(alloc, s, from, label, to) {
        Ok(true) => Ok(None),
        Ok(false) => Ok(Some(Verdict::No(Why::Step(k + 1)))),
        Err(StepFail::Wide) => Ok(Some(Verdict::Wide(k))),
        Err(StepFail::TooMany) => Ok(Some(Verdict::TooMany(k))),
        Err(StepFail::Memory(e)) => Err(e),
    }
}
