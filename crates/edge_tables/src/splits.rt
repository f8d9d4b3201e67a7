// How the choices of vectors are split into targets.

ghost use Rattle.std.specs.Prelude.{◌≡◌, map, IfOk};
ghost use Rattle.jani_tree.specs.Syntax.{vector_of};
ghost use Rattle.edge_tables.specs.Tables.{split_from};
ghost use Rattle.edge_tables.specs.Code.{table_view, split_view};

use crate::edges::ElementEdges;
use crate::parts::part_of;
use jani_tree::JaniVector;
use std::alloc::{AllocError, Global};

/// A vector; its reward writer, if it has one; the numbers of the edges of that for which it has targets; and whether it has a
/// plain target.
#[derive(Clone, Copy)]
pub struct VectorSplit<'a, 't> {
    pub vector: &'a JaniVector,
    pub writer: Option<usize>,
    pub makers: &'t [usize],
    pub plain: bool,
}

/// How a vector is split, by the edges of the elements: the first with an edge that has the action named there and assigns
/// rewards is the reward writer.
fn split<'a, 't>(elements: &'t [ElementEdges<'a>], v: &'a JaniVector) -> VectorSplit<'a, 't>
    ensures { split_view result ≡ split_from (vector_of v.now) 0 (map table_view elements.now) }
{
    for (k, e) in elements.iter().enumerate() {
        let part = part_of(v, k);
        let makers = e.makers(part);
        if !makers.is_empty() {
            return VectorSplit {
                vector: v,
                writer: Some(k),
                makers,
                plain: e.is_plain(part),
            };
        }
    }
    VectorSplit {
        vector: v,
        writer: None,
        makers: &[],
        plain: true,
    }
}

/// How each vector is split. `Err` is want of memory.
pub fn all_splits<'a, 't>(
    alloc: Global,
    elements: &'t [ElementEdges<'a>],
    vectors: &'a [JaniVector],
) -> Result<Vec<VectorSplit<'a, 't>>, AllocError>
    ensures { IfOk result
        (λ ss. map split_view ss.items ≡ map (λ v. split_from v 0 (map table_view elements.now)) (map vector_of vectors.now)) }
{
    let mut all = Vec::new(alloc);
    for v in vectors {
        all.push(split(elements, v))?;
    }
    Ok(all)
}
