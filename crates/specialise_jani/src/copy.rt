// Copies of what folding leaves as it is.

ghost use Rattle.std.specs.Prelude.{◌≡◌, IfOk};

use bridge_io::{Named, Text};
use jani_tree::copy_name;
use std::alloc::{AllocError, Global};

/// The same name, where there is one.
pub(crate) fn copy_action(alloc: Global, name: &Option<Named>) -> Result<Option<Named>, AllocError>
    ensures { IfOk result (λ copy. copy ≡ name.now) }
{
    match name {
        Some(name) => Ok(Some(copy_name(alloc, name)?)),
        None => Ok(None),
    }
}

/// The same comment, where there is one.
pub(crate) fn copy_note(alloc: Global, note: &Option<Text>) -> Result<Option<Text>, AllocError>
    ensures { IfOk result (λ copy. copy ≡ note.now) }
{
    match note {
        Some(note) => Ok(Some(Text::copy_of(alloc, note.as_str())?)),
        None => Ok(None),
    }
}
