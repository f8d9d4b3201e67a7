// The images of the expressions of elements.

ghost use Rattle.std.specs.Prelude.{◌≡◌, IfOk};
ghost use Rattle.op_trees.specs.Tree.{tree};
ghost use Rattle.name_table.specs.PrismAsks.{value_name};
ghost use Rattle.jani_images.specs.Image.{image};
ghost use Rattle.module_parts.specs.Code.{file_in, names_in, IsReady};

use crate::entries::Names;
use jani_tree::JaniExpr;
use prism_images::NewNames;
use prism_tree::PrismExpr;
use std::alloc::{AllocError, Global};

/// The image of an expression of an element. `Err` is want of memory.
pub fn image(
    alloc: Global,
    names: &Names,
    element: usize,
    e: &JaniExpr,
) -> Result<PrismExpr, AllocError>
    requires { IsReady names.now }
    ensures { IfOk result (λ r. tree r ≡ image (value_name (file_in names.now) (names_in names.now) element) (tree e.now)) }
{
    jani_images::image(alloc, e, &ElementNames { names, element })
}

/// What names become in an element.
#[derive(Drop)]
struct ElementNames<'s, 'a> {
    names: &'s Names<'a>,
    element: usize,
}

impl<'s, 'a> NewNames for ElementNames<'s, 'a> {
    ghost use Rattle.std.specs.Prelude.{◌≡◌};
    ghost use Rattle.module_parts.specs.Code.{value_in};

    ghost new = { λ n. value_in n.names.now n.element };

    fn new_name<'o>(&'o self, old: &'o str) -> &'o str {
        self.names.value(self.element, old)
    }
}
