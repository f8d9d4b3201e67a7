// A file with its parts folded.

ghost use Rattle.std.specs.Prelude.{◌≡◌, IfOk};
ghost use Rattle.jani_tree.specs.Syntax.{file_of};
ghost use Rattle.constant_folding.specs.Tables.{given_in, known_in};
ghost use Rattle.specialise_jani.specs.Specialised.{specialised_by};

use crate::numerals::JaniNumerals;
use crate::parts::{all_folded, restriction};
use bridge_io::together;
use constant_folding::KnownTable;
use jani_tree::{JaniFile, copy_json};
use std::alloc::{AllocError, Global};

/// The file with all its parts folded. `Err` is want of memory.
pub(crate) fn folded_file(
    alloc: Global,
    file: &JaniFile,
    table: &KnownTable<JaniNumerals>,
) -> Result<JaniFile, AllocError>
    ensures { IfOk result (λ f. file_of f ≡ specialised_by (given_in table.now) (known_in table.now) (file_of file.now)) }
{
    let actions = all_folded(alloc, file.actions.as_slice(), table);
    let elements = all_folded(alloc, file.elements.as_slice(), table);
    let constants = all_folded(alloc, file.constants.as_slice(), table);
    let variables = all_folded(alloc, file.variables.as_slice(), table);
    let restrict = restriction(alloc, &file.restrict, table);
    let automata = all_folded(alloc, file.automata.as_slice(), table);
    let vectors = all_folded(alloc, file.vectors.as_slice(), table);
    let names = together(actions, elements);
    let values = together(constants, variables);
    let edges = together(automata, vectors);
    let rest = together(restrict, copy_json(alloc, &file.properties));
    let outer = together(names, values);
    let inner = together(edges, rest);
    let (
        ((actions, elements), (constants, variables)),
        ((automata, vectors), (restrict, properties)),
    ) = together(outer, inner)?;
    Ok(JaniFile {
        actions,
        constants,
        variables,
        restrict,
        automata,
        elements,
        elements_at: file.elements_at,
        vectors,
        properties,
    })
}
