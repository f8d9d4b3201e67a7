// All faults of a PRISM file: of its names, then of its size, then of its types.

ghost use Rattle.std.specs.Prelude.{◌≡◌, [], IfOk};
ghost use Rattle.prism_tree.specs.Syntax.{file_of};
ghost use Rattle.prism_flat.specs.Places.{IsPlaceOrder};
ghost use Rattle.prism_check.specs.Judged.{IsVerdict};
ghost use Rattle.prism_check.specs.NameFaults.{name_faults};

use crate::names::{Names, judge_names};
use crate::sizes::{Sizes, judge_sizes};
use crate::types::judge_types;
use bridge_io::{Fault, Reason};
use prism_tree::PrismFile;
use std::alloc::{AllocError, Global};

/// What a file comes to.
#[derive(Drop)]
pub(crate) enum Verdict {
    /// The least fault of the first kind that it has any of.
    Faulty(Fault),
    /// It has none; its formulas stand at these places, each after those that it names, and it has so many commands.
    Sound(Vec<usize>, usize),
}

/// Judges the names of a file; where these have no fault its size, and where that has none its types.
pub(crate) fn judge_prism(alloc: Global, file: &PrismFile) -> Result<Verdict, AllocError>
    ensures { IfOk result (IsVerdict (file_of file.now)) }
{
    match judge_names(alloc, file)? {
        Names::Faulty(fault) => Ok(Verdict::Faulty(fault)),
        Names::Ordered(order) => judge_named(alloc, file, order),
    }
}

// Judges the size and the types of a file whose names have no fault.
fn judge_named(alloc: Global, file: &PrismFile, order: Vec<usize>) -> Result<Verdict, AllocError>
    requires names { name_faults (file_of file.now) ≡ [] }
    requires order { IsPlaceOrder (file_of file.now) order.items }
    ensures { IfOk result (IsVerdict (file_of file.now)) }
{
    match judge_sizes(alloc, file, &order)? {
        Sizes::TooLarge => Ok(Verdict::Faulty(Fault {
            reason: Reason::TooLarge,
            at: 0,
        })),
        Sizes::Within(commands) => match judge_types(alloc, file, &order)? {
            Some(fault) => Ok(Verdict::Faulty(fault)),
            None => Ok(Verdict::Sound(order, commands)),
        },
    }
}
