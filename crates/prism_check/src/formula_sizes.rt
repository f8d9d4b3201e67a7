// How large the formulas of a file are once they are written out.

ghost use Rattle.std.specs.Prelude.{◌≡◌, ℕ, IfOk, if◌then◌else◌};
ghost use Rattle.prism_tree.specs.Syntax.{file_of};
ghost use Rattle.prism_flat.specs.Places.{IsPlaceOrder};
ghost use Rattle.prism_check.specs.Counted.{AreSizes, size_in};

use crate::tree_size::{Size, measure};
use name_rules::NameMap;
use prism_tree::PrismFile;
use std::alloc::{AllocError, Global};

/// The sizes of the formulas by their names, where they stand at these places in an order in which each names only earlier
/// ones. Each body is counted once.
pub(crate) fn formula_sizes<'a>(
    alloc: Global,
    file: &'a PrismFile,
    order: &[usize],
) -> Result<NameMap<'a, Size>, AllocError>
    requires { IsPlaceOrder (file_of file.now) order.now }
    ensures { IfOk result (λ sizes. AreSizes (file_of file.now) (size_in sizes)) }
{
    let formulas = file.formulas.as_slice();
    let mut sizes = NameMap::new(alloc);
    for place in order {
        let formula = &formulas[*place];
        let size = measure(&formula.body, &sizes);
        sizes.put(formula.name.name.as_str(), size)?;
    }
    Ok(sizes)
}
