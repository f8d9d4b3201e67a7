// Lists of one member.

ghost use Rattle.std.specs.Prelude.{◌≡◌, [], ◌∷◌, IfOk, IsOkAnd};

use bridge_io::List;
use std::alloc::{AllocError, Global};

/// The list of one member that was made.
pub fn one_of<T: Drop>(alloc: Global, made: Result<T, AllocError>) -> Result<List<T>, AllocError>
    ensures { IfOk result (λ all. IsOkAnd made (λ x. all ≡ x ∷ [])) }
{
    let mut all = List::new(alloc);
    all.push(made?)?;
    Ok(all)
}
