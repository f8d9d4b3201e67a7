// The vectors in which each element takes part, with the numbers of their targets, gathered vector by vector.

ghost use Rattle.std.specs.Prelude.{◌≡◌, ℕ, map, IfOk};
ghost use Rattle.std.specs.List.{filter};
ghost use Rattle.gathering.specs.Lists.{list_for};
ghost use Rattle.edge_tables.specs.Tables.{is_participant};
ghost use Rattle.prism_targets.specs.Code.{row_view};

use crate::rows::VectorRow;
use edge_tables::add_for_each;
use gathering::NumberLists;
use std::alloc::{AllocError, Global};

/// The vectors of each element, by its number.
pub(crate) fn rows_by_element<'r, 'a, 't>(
    alloc: Global,
    rows: &'r [VectorRow<'a, 't>],
) -> Result<NumberLists<&'r VectorRow<'a, 't>>, AllocError>
    ensures { IfOk result (λ all. (k : ℕ) → map (λ r. row_view r.now) (list_for all k) ≡ filter (λ r. is_participant k r.split) (map row_view rows.now)) }
{
    let mut all = NumberLists::new(alloc);
    for row in rows {
        add_for_each(alloc, &mut all, row.split.vector, row)?;
    }
    Ok(all)
}
