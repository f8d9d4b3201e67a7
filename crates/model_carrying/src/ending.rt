//! How it ends with a path that is carried.
ghost use Rattle.std.specs.Prelude.{◌≡◌, IfOk};
ghost use Rattle.model_carrying.specs.Ends.{carry_ending};

use command_words::Claim;
use model_process::{Ending, judged_ending};
use path_carry::Carried;
use row_check::{Verdict, Why};
use std::alloc::{AllocError, Global};

/// How it ends with what a path is carried to. The lines are those that a verdict on a path has.
pub(crate) fn carry_ending(alloc: Global, carried: Carried) -> Result<Ending, AllocError>
    ensures { IfOk result (λ e. e ≡ carry_ending carried) }
{
    let verdict = match carried {
        Carried::Path(text) => return Ok(Ending::Done(text)),
        Carried::No(k) => Verdict::No(Why::Step(k)),
        Carried::Wide(k) => Verdict::Wide(k),
        Carried::TooMany(k) => Verdict::TooMany(k),
    };
    judged_ending(alloc, Claim::Path(""), verdict)
}
