// The names of the actions that a translation makes.

ghost use Rattle.std.specs.Prelude.{◌≡◌, map, option_copied, OnOk};
ghost use Rattle.name_table.specs.Gathered.{told};
ghost use Rattle.prism_targets.specs.Targets.{old_name_by};
ghost use Rattle.jani_to_prism.specs.Asks.{vector_in, vector_ask};

use name_table::{NameClass, NameTable};
use prism_targets::Target;
use std::alloc::AllocError;

/// The old name of a target: its vector's result.
pub(crate) fn old_name<'a>(t: &Target<'a>) -> Option<&'a str>
    ensures { option_copied result ≡ old_name_by (vector_in t.now) }
{
    match t.vector {
        Some(v) => match &v.result {
            Some(name) => Some(name.name.as_str()),
            None => None,
        },
        None => None,
    }
}

/// Asks for the names of targets. `Err` is want of memory.
pub(crate) fn ask_actions(table: &mut NameTable, targets: &[Target]) -> Result<(), AllocError>
    ensures { OnOk result (table.new ≡ told table.old (map vector_ask (map vector_in targets.now))) }
{
    for t in targets {
        table.keep_or_make(NameClass::Action, old_name(t))?;
    }
    Ok(())
}
