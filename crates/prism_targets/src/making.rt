// What the edges of a file serve.

ghost use Rattle.std.specs.Prelude.{◌≡◌, ◌≤◌, ◌+◌, ◌-◌, ◌^◌, ◌++◌, ◌∷◌, [], None, map, length, vec_len, IfOk, OnOk};
ghost use Rattle.jani_tree.specs.Syntax.{file_of};
ghost use Rattle.jani_loops.specs.Elements.{element_view};
ghost use Rattle.jani_meaning.specs.Elements.{elements, structures as structures_of};
ghost use Rattle.name_table.specs.JaniParts.{owned_of};
ghost use Rattle.edge_tables.specs.Tables.{element_serves, served_from};
ghost use Rattle.prism_targets.specs.Made.{made_alone, silent_from};
ghost use Rattle.edge_tables.specs.Code.{shape_kept, shape_of, table_view, split_view};
ghost use Rattle.prism_targets.specs.Code.{element_served, row_view, shape_served, target_view, served_targets, served_elements};
ghost use Rattle.prism_targets.specs.Serving.{IsServing};

use crate::participants::rows_by_element;
use crate::rows::{VectorRow, add_all_targets};
use crate::served::{ElementServing, Serving, element_serving};
use crate::targets::{Target, add_silent};
use edge_tables::{ElementEdges, VectorSplit, all_splits, element_edges};
use jani_loops::ElementAutomaton;
use jani_tree::JaniFile;
use name_table::OwnedVar;
use std::alloc::{AllocError, Global};

/// The targets of a file, which edges serve them and which elements block them, where these are its elements and its
/// numeric transient variables. (The rule is this project's own.) `Err` is want of memory.
pub fn serving<'a>(
    alloc: Global,
    file: &'a JaniFile,
    automata: &[ElementAutomaton<'a>],
    structures: &[OwnedVar<'a>],
) -> Result<Serving<'a>, AllocError>
    requires automata { map element_view automata.now ≡ elements (file_of file.now) }
    requires structures { map owned_of structures.now ≡ structures_of (file_of file.now) }
    ensures serving { IfOk result (IsServing (file_of file.now)) }
    ensures shapes { IfOk result (λ s. map shape_served s.elements.items ≡ map shape_of automata.now) }
{
    let edges = element_edges(alloc, automata, structures)?;
    let splits = all_splits(alloc, edges.as_slice(), file.vectors.as_slice())?;
    serving_by(alloc, edges.as_slice(), splits.as_slice())
}

/// The same by the edges of the elements and by how the vectors are split.
fn serving_by<'a>(
    alloc: Global,
    edges: &[ElementEdges<'a>],
    splits: &[VectorSplit<'a, '_>],
) -> Result<Serving<'a>, AllocError>
    ensures targets { IfOk result (λ s. map target_view s.targets.items ≡ served_targets (map split_view splits.now) (map table_view edges.now)) }
    ensures elements { IfOk result (λ s. map element_served s.elements.items ≡ served_elements (map split_view splits.now) (map table_view edges.now)) }
    ensures few { IfOk result (λ s. length s.targets.items ≤ 2 ^ 64 - 1) }
    ensures shapes { IfOk result (λ s. map shape_served s.elements.items ≡ map shape_kept edges.now) }
{
    let mut targets = Vec::new(alloc);
    let elements = add_targets(alloc, &mut targets, edges, splits)?;
    Ok(Serving { targets, elements })
}

/// Adds all targets where there is none yet, and tells what the elements do with them.
fn add_targets<'a>(
    alloc: Global,
    targets: &mut Vec<Target<'a>>,
    edges: &[ElementEdges<'a>],
    splits: &[VectorSplit<'a, '_>],
) -> Result<Vec<ElementServing>, AllocError>
    ensures targets { OnOk result (targets.old.items ≡ [] → map target_view targets.new.items ≡ served_targets (map split_view splits.now) (map table_view edges.now)) }
    ensures elements { IfOk result (λ es. targets.old.items ≡ [] → map element_served es.items ≡ served_elements (map split_view splits.now) (map table_view edges.now)) }
    ensures shapes { IfOk result (λ es. map shape_served es.items ≡ map shape_kept edges.now) }
{
    let rows = add_all_targets(alloc, targets, splits)?;
    add_elements(alloc, targets, rows.as_slice(), edges)
}

/// Adds the targets of the silent edges of all elements, and tells what the elements do with all targets.
fn add_elements<'a>(
    alloc: Global,
    targets: &mut Vec<Target<'a>>,
    rows: &[VectorRow<'a, '_>],
    edges: &[ElementEdges<'a>],
) -> Result<Vec<ElementServing>, AllocError>
    ensures targets { OnOk result
        (map target_view targets.new.items ≡ map target_view targets.old.items ++ silent_from 0 (map table_view edges.now)) }
    ensures elements { IfOk result
        (λ es. map element_served es.items ≡ served_from (map row_view rows.now) 0 (vec_len targets.old) (map table_view edges.now)) }
    ensures shapes { IfOk result (λ es. map shape_served es.items ≡ map shape_kept edges.now) }
{
    let mine = rows_by_element(alloc, rows)?;
    let mut all = Vec::new(alloc);
    for (k, e) in edges.iter().enumerate() {
        add_element(alloc, &mut all, targets, mine.get(k), k, e)?;
    }
    Ok(all)
}

/// Adds the targets of the silent edges of an element, and what it does with all targets, by the vectors in which it takes part.
fn add_element<'a>(
    alloc: Global,
    all: &mut Vec<ElementServing>,
    targets: &mut Vec<Target<'a>>,
    rows: &[&VectorRow<'a, '_>],
    element: usize,
    edges: &ElementEdges<'a>,
) -> Result<(), AllocError>
    ensures targets { OnOk result (map target_view targets.new.items ≡ map target_view targets.old.items ++ made_alone element ((table_view edges.now).rewarding None)) }
    ensures count { OnOk result (vec_len targets.new ≡ vec_len targets.old + length ((table_view edges.now).rewarding None)) }
    ensures elements { OnOk result
        (map element_served all.new.items ≡ map element_served all.old.items ++ element_serves (map (λ r. row_view r.now) rows.now) element (vec_len targets.old) (table_view edges.now) ∷ []) }
    ensures shapes { OnOk result (map shape_served all.new.items ≡ map shape_served all.old.items ++ shape_kept edges.now ∷ []) }
{
    let first = targets.len();
    add_silent(targets, element, edges.silent.as_slice())?;
    all.push(element_serving(alloc, rows, element, first, edges)?)?;
    Ok(())
}
