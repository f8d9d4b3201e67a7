// The parts of vectors, and other elements.

ghost use Rattle.std.specs.Prelude.{◌≡◌};
ghost use Rattle.jani_tree.specs.Syntax.{vector_of};
ghost use Rattle.prism_translation.specs.Targets.{is_another, part_of};
ghost use Rattle.edge_tables.specs.Code.{name_of};

use bridge_io::Named;
use jani_tree::JaniVector;

/// The action that a vector names for the element of this number, if that takes part.
pub fn part_of(v: &JaniVector, element: usize) -> Option<&Named>
    ensures { name_of result ≡ part_of (vector_of v.now) element }
{
    match v.parts.get(element) {
        Some(Some(action)) => Some(action),
        _ => None,
    }
}

/// Whether this element is another than the one that may be given.
pub fn is_another(element: usize, writer: Option<usize>) -> bool
    ensures { result ≡ is_another element writer }
{
    match writer {
        Some(other) => other != element,
        None => false,
    }
}
