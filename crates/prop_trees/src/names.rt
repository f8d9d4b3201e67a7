// The names of a model as they stand in properties.

ghost use Rattle.std.specs.Prelude.{◌≡◌, IfOk};
ghost use Rattle.prop_trees.specs.Names.{marked};

use bridge_io::Text;
use std::alloc::{AllocError, Global};

/// A name of the model as it stands in a property: behind a point. `Err` is want of memory.
pub fn marked(alloc: Global, name: &str) -> Result<Text, AllocError>
    ensures { IfOk result (λ text. text ≡ marked name.now) }
{
    let mut text = String::from_str(alloc, ".")?;
    text.push_str(name)?;
    Text::from_string(text)
}
