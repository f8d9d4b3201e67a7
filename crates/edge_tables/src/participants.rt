// The vectors in which each element takes part, gathered vector by vector: most elements take part in few of them, and to read one
// part of each vector for each element would take much longer than to read the vectors.

ghost use Rattle.std.specs.Prelude.{◌≡◌, ◌++◌, ◌&&◌, ℕ, map, is_some, nat_eq, IfOk, OnOk};
ghost use Rattle.std.specs.List.{filter};
ghost use Rattle.jani_tree.specs.Syntax.{vector_of};
ghost use Rattle.process_core.specs.Instance.{only_if};
ghost use Rattle.gathering.specs.Lists.{list_for};
ghost use Rattle.edge_tables.specs.Tables.{takes_part, is_participant};
ghost use Rattle.edge_tables.specs.Code.{split_view};

use crate::splits::VectorSplit;
use bridge_io::Named;
use gathering::NumberLists;
use jani_tree::JaniVector;
use std::alloc::{AllocError, Global};

/// The vectors of each element, by its number.
pub(crate) fn splits_by_element<'r, 'a, 't>(
    alloc: Global,
    splits: &'r [VectorSplit<'a, 't>],
) -> Result<NumberLists<&'r VectorSplit<'a, 't>>, AllocError>
    ensures { IfOk result (λ all. (k : ℕ) → map (λ s. split_view s.now) (list_for all k) ≡ filter (is_participant k) (map split_view splits.now)) }
{
    let mut all = NumberLists::new(alloc);
    for split in splits {
        add_for_each(alloc, &mut all, split.vector, split)?;
    }
    Ok(all)
}

/// Adds what is known of a vector for each element that takes part in it. `Err` is want of memory.
pub fn add_for_each<'r, T>(
    alloc: Global,
    all: &mut NumberLists<&'r T>,
    vector: &JaniVector,
    known: &'r T,
) -> Result<(), AllocError>
    ensures { OnOk result ((k : ℕ) → map (λ r. r.now) (list_for all.new k)
        ≡ map (λ r. r.now) (list_for all.old k) ++ only_if (takes_part k (vector_of vector.now).parts) known.now) }
{
    let parts = vector.parts.as_slice();
    for (element, part) in parts.iter().enumerate() {
        add_for(alloc, all, element, part, known)?;
    }
    Ok(())
}

/// Adds what is known of a vector for an element, if this is its part and it has one.
fn add_for<'r, T>(
    alloc: Global,
    all: &mut NumberLists<&'r T>,
    element: usize,
    part: &Option<Named>,
    known: &'r T,
) -> Result<(), AllocError>
    ensures { OnOk result ((k : ℕ) → map (λ r. r.now) (list_for all.new k)
        ≡ map (λ r. r.now) (list_for all.old k) ++ only_if (is_some part.now && nat_eq k element) known.now) }
{
    match part {
        Some(_action) => all.add(alloc, element, known),
        None => Ok(()),
    }
}
