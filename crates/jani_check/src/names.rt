// The faults of names.

ghost use Rattle.std.specs.Prelude.{◌≡◌, IfOk};
ghost use Rattle.name_rules.specs.Least.{soonest};
ghost use Rattle.jani_tree.specs.Syntax.{file_of};
ghost use Rattle.jani_check.specs.NameFaults.{name_faults};

use crate::circles::judge_constants;
use crate::composition::judge_composition;
use crate::doubled::judge_twice;
use crate::naming::global_names;
use crate::unknown::judge_unknown_names;
use bridge_io::Fault;
use jani_tree::JaniFile;
use name_rules::Judged;
use std::alloc::Global;

/// The least of a fault that was found before and those of names.
pub(crate) fn judge_names(alloc: Global, file: &JaniFile, before: Option<Fault>) -> Judged
    ensures { IfOk result (λ best. best ≡ soonest before (name_faults (file_of file.now))) }
{
    let global = global_names(alloc, file)?;
    let twice = judge_twice(alloc, file, &global, before)?;
    let unknown = judge_unknown_names(alloc, file, twice)?;
    let circles = judge_constants(alloc, file.constants.as_slice(), unknown)?;
    judge_composition(alloc, file, circles)
}
