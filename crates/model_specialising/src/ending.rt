//! How it ends with given values, of which those before the first that is past the bound were looked at.
ghost use Rattle.std.specs.Prelude.{◌≡◌, ◌<◌, List, None, IfOk, length, map};
ghost use Rattle.instance_start.specs.Description.{Constant};
ghost use Rattle.constant_folding.specs.Unfit.{Fails, unfit};
ghost use Rattle.command_words.specs.Given.{assignment_of};
ghost use Rattle.model_process.specs.Constants.{good_front};
ghost use Rattle.model_process.specs.Starts.{IsBehind};
ghost use Rattle.model_specialising.specs.Values.{IsFinished, IsUnfit};

use bridge_io::List;
use command_words::Assignment;
use constant_folding::SpecFail;
use model_process::{Ending, wrong_value};
use std::alloc::AllocError;

/// With this text, where so many values fit and they are all; else one of them is past the bound.
pub(crate) fn finished(next: usize, values: &[Assignment], front: usize, text: List<u8>) -> Ending
    requires below { length values.now < next }
    requires behind { IsBehind 3 (map assignment_of values.now) next }
    requires front { front ≡ length (good_front (map assignment_of values.now)) }
    ensures { (cs : List Constant) → unfit cs (good_front (map assignment_of values.now)) ≡ None → IsFinished cs (map assignment_of values.now) text result }
{
    let all = values.len();
    if front < all {
        return wrong_value(next, all, front);
    }
    Ending::Done(text)
}

/// Where a value doesn't fit, or memory ran out.
pub(crate) fn failed(
    next: usize,
    values: &[Assignment],
    fail: SpecFail,
) -> Result<Ending, AllocError>
    requires below { length values.now < next }
    requires behind { IsBehind 3 (map assignment_of values.now) next }
    ensures { (cs : List Constant) → Fails cs (good_front (map assignment_of values.now)) fail → IfOk result (IsUnfit cs (map assignment_of values.now)) }
{
    match fail {
        SpecFail::Memory(e) => Err(e),
        SpecFail::Word(i) => Ok(wrong_value(next, values.len(), i)),
    }
}
