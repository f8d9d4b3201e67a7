// Names asked for, those of one class after another.

ghost use Rattle.std.specs.Prelude.{◌≡◌, List, ℕ, Option, map, OnOk, option_copied};
ghost use Rattle.name_table.specs.Gathered.{told};

use crate::class::NameClass;
use crate::table::NameTable;
use std::alloc::AllocError;

/// What may have a name, which it would keep.
pub trait HasName {
    ghost called: { Self → Option (List ℕ) };

    /// The name, if there is one.
    fn name(&self) -> Option<&str>
        ensures { option_copied result ≡ called self.now };
}

/// Asks for the names of these, all of one class. `Err` is want of memory.
pub fn ask_each<T: HasName>(
    table: &mut NameTable,
    class: NameClass,
    things: &[T],
) -> Result<(), AllocError>
    ensures { OnOk result (table.new ≡ told table.old (map (λ o. (class, o)) (map T.called things.now))) }
{
    for thing in things {
        table.keep_or_make(class, thing.name())?;
    }
    Ok(())
}
