// Names of a translated file, with their places.

ghost use Rattle.std.specs.Prelude.{◌≡◌, IfOk};
ghost use Rattle.name_table.specs.Made.{instead, made};

use bridge_io::{Named, Text};
use std::alloc::{AllocError, Global};

/// A name that is made; it stands at 0. `Err` is want of memory.
pub fn made(alloc: Global, name: &str) -> Result<Named, AllocError>
    ensures { IfOk result (λ r. r ≡ made name.now) }
{
    Ok(Named {
        name: Text::copy_of(alloc, name)?,
        at: 0,
    })
}

/// Another name at the place of an old one. `Err` is want of memory.
pub fn instead(alloc: Global, old: &Named, name: &str) -> Result<Named, AllocError>
    ensures { IfOk result (λ r. r ≡ instead old.now name.now) }
{
    Ok(Named {
        name: Text::copy_of(alloc, name)?,
        at: old.at,
    })
}
