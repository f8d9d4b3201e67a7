// Vectors with the numbers of their targets.

ghost use Rattle.std.specs.Prelude.{◌≡◌, ◌++◌, map, vec_len, IfOk, OnOk};
ghost use Rattle.std.specs.List.{flat_map};
ghost use Rattle.edge_tables.specs.Tables.{row_at, rows_from};
ghost use Rattle.prism_targets.specs.Made.{vector_made};
ghost use Rattle.edge_tables.specs.Code.{split_view};
ghost use Rattle.prism_targets.specs.Code.{row_view, target_view};

use crate::targets::{Target, add_made, add_plain};
use edge_tables::VectorSplit;
use std::alloc::{AllocError, Global};

/// A vector, with the number of its first target, the number of its plain one, which stands behind those that are made for
/// edges, and the number behind all of them.
#[derive(Clone, Copy)]
pub(crate) struct VectorRow<'a, 't> {
    pub(crate) split: VectorSplit<'a, 't>,
    pub(crate) first: usize,
    pub(crate) behind: usize,
    pub(crate) end: usize,
}

/// Adds the targets of a vector, and tells their numbers.
fn add_targets<'a, 't>(
    all: &mut Vec<Target<'a>>,
    split: &VectorSplit<'a, 't>,
) -> Result<VectorRow<'a, 't>, AllocError>
    ensures targets { OnOk result (map target_view all.new.items ≡ map target_view all.old.items ++ vector_made (split_view split.now)) }
    ensures row { IfOk result (λ r. row_view r ≡ row_at (vec_len all.old) (split_view split.now)) }
    ensures end { IfOk result (λ r. r.end ≡ vec_len all.new) }
{
    let first = all.len();
    add_made(all, split)?;
    let behind = all.len();
    add_plain(all, split)?;
    Ok(VectorRow {
        split: *split,
        first,
        behind,
        end: all.len(),
    })
}

/// Adds the targets of all vectors, in order.
pub(crate) fn add_all_targets<'a, 't>(
    alloc: Global,
    all: &mut Vec<Target<'a>>,
    splits: &[VectorSplit<'a, 't>],
) -> Result<Vec<VectorRow<'a, 't>>, AllocError>
    ensures targets { OnOk result
        (map target_view all.new.items ≡ map target_view all.old.items ++ flat_map vector_made (map split_view splits.now)) }
    ensures rows { IfOk result (λ rs. map row_view rs.items ≡ rows_from (vec_len all.old) (map split_view splits.now)) }
{
    let mut rows = Vec::new(alloc);
    for split in splits {
        rows.push(add_targets(all, split)?)?;
    }
    Ok(rows)
}
