// Names of their own: of the one location, of the action of commands without action, of the monitor.

ghost use Rattle.std.specs.Prelude.{◌≡◌, IfOk};
ghost use Rattle.jani_translation.specs.Automata.{loc, zz_silent, zz_monitor};

use bridge_io::Named;
use name_table::made;
use std::alloc::{AllocError, Global};

/// The one location of each automaton.
pub(crate) fn loc(alloc: Global) -> Result<Named, AllocError>
    ensures { IfOk result (λ r. r ≡ loc) }
{
    let name = made(alloc, "loc")?;
    Ok(name)
}

/// The action of commands without action, where the monitor earns rewards for them. `Err` is want of memory.
pub fn zz_silent(alloc: Global) -> Result<Named, AllocError>
    ensures { IfOk result (λ r. r ≡ zz_silent) }
{
    let name = made(alloc, "zz_silent")?;
    Ok(name)
}

/// The name of the monitor. `Err` is want of memory.
pub fn zz_monitor(alloc: Global) -> Result<Named, AllocError>
    ensures { IfOk result (λ r. r ≡ zz_monitor) }
{
    let name = made(alloc, "zz_monitor")?;
    Ok(name)
}
