// The elements of a system.

ghost use Rattle.std.specs.Prelude.{◌≡◌, map, IfOk};
ghost use Rattle.jani_tree.specs.Syntax as jani;

use bridge_io::List;
use jani_tree::{JaniAutomaton, JaniElement};
use name_table::instead;
use std::alloc::{AllocError, Global};

/// The automata as elements, which accept no action besides.
pub(crate) fn elements(
    alloc: Global,
    automata: &[JaniAutomaton],
) -> Result<List<JaniElement>, AllocError>
    ensures { IfOk result (λ r. map jani.element_of r ≡ map (λ a. jani.plain_element a.name) (map jani.automaton_of automata.now)) }
{
    let mut all = List::new(alloc);
    for a in automata {
        let name = instead(alloc, &a.name, a.name.name.as_str())?;
        let enable = List::new(alloc);
        all.push(JaniElement { name, enable })?;
    }
    Ok(all)
}
