// Which files without a fault have no translation.

ghost use Rattle.std.specs.Prelude.{◌≡◌, None, map, IfOk};
ghost use Rattle.bridge_io.specs.declared.reason.Reason.TheVariants.{TooLarge};
ghost use Rattle.name_rules.specs.Least.{fault_if, soonest};
ghost use Rattle.jani_tree.specs.Syntax.{file_of};
ghost use Rattle.jani_loops.specs.Elements.{element_view};
ghost use Rattle.jani_meaning.specs.Elements.{elements, lasting as lasting_of, labels as labels_of, structures as structures_of};
ghost use Rattle.name_table.specs.JaniParts.{owned_of};
ghost use Rattle.prism_translation.specs.Elements as spec;
ghost use Rattle.prism_translation.specs.Refused.{has_large_result, is_too_large, refused};
ghost use Rattle.edge_tables.specs.Tables.{table_in};
ghost use Rattle.edge_tables.specs.Counts.{crowded_from, has_many_commands, usable_among};
ghost use Rattle.edge_tables.specs.Code.{table_view};

use crate::crowds::has_long_guard;
use bridge_io::{Fault, Reason};
use edge_tables::{
    ElementEdges, Places, all_splits, element_edges, has_many_starts, has_many_values,
    has_too_many, judge_shared,
};
use jani_check::CheckedJani;
use jani_loops::ElementAutomaton;
use jani_tree::JaniFile;
use name_table::OwnedVar;
use std::alloc::{AllocError, Global};

/// The least of the faults that a file without fault has as one to be translated, where these are its elements and its
/// variables: global variables that edges of several elements assign, one of them with an action or with rewards; else
/// that the translation would be too large, which is counted and not tried. (The rule is this project's own.) `Err` is want of
/// memory.
pub fn least_refused<'a>(
    alloc: Global,
    checked: &'a CheckedJani,
    automata: &[ElementAutomaton<'a>],
    lasting: &[OwnedVar],
    labels: &[OwnedVar],
    structures: &[OwnedVar],
) -> Result<Option<Fault>, AllocError>
    requires automata { map element_view automata.now ≡ elements (file_of checked.now) }
    requires lasting { map owned_of lasting.now ≡ lasting_of (file_of checked.now) }
    requires labels { map owned_of labels.now ≡ labels_of (file_of checked.now) }
    requires structures { map owned_of structures.now ≡ structures_of (file_of checked.now) }
    ensures { IfOk result (λ best. best ≡ soonest None (refused (file_of checked.now))) }
{
    let edges = element_edges(alloc, automata, structures)?;
    let shared = judge_shared(alloc, edges.as_slice(), lasting)?;
    if shared.is_some() {
        return Ok(shared);
    }
    let large = is_too_large(alloc, checked, automata, edges.as_slice(), lasting, labels)?;
    Ok(too_large_if(large))
}

/// The fault of a translation that would be too large, if it would.
fn too_large_if(large: bool) -> Option<Fault>
    ensures { result ≡ soonest None (fault_if large 0 TooLarge) }
{
    if large {
        Some(Fault {
            reason: Reason::TooLarge,
            at: 0,
        })
    } else {
        None
    }
}

/// Whether the translation would be too large, by the edges of the elements.
fn is_too_large<'a>(
    alloc: Global,
    checked: &'a CheckedJani,
    automata: &[ElementAutomaton],
    edges: &[ElementEdges<'a>],
    lasting: &[OwnedVar],
    labels: &[OwnedVar],
) -> Result<bool, AllocError>
    requires automata { map element_view automata.now ≡ elements (file_of checked.now) }
    requires lasting { map owned_of lasting.now ≡ lasting_of (file_of checked.now) }
    requires labels { map owned_of labels.now ≡ labels_of (file_of checked.now) }
    requires edges { map table_view edges.now ≡ map (table_in (file_of checked.now)) (spec.elements (file_of checked.now)) }
    ensures { IfOk result (λ b. b ≡ is_too_large (file_of checked.now)) }
{
    let file = checked.file();
    if has_many_starts(file, automata, lasting) {
        return Ok(true);
    }
    if has_long_guard(alloc, file)? {
        return Ok(true);
    }
    has_large_result(alloc, file, automata, edges, labels)
}

/// Whether the translation would have too many commands or nodes, or a label too many values.
fn has_large_result<'a>(
    alloc: Global,
    file: &'a JaniFile,
    automata: &[ElementAutomaton],
    edges: &[ElementEdges<'a>],
    labels: &[OwnedVar],
) -> Result<bool, AllocError>
    requires automata { map element_view automata.now ≡ elements (file_of file.now) }
    requires labels { map owned_of labels.now ≡ labels_of (file_of file.now) }
    requires edges { map table_view edges.now ≡ map (table_in (file_of file.now)) (spec.elements (file_of file.now)) }
    ensures { IfOk result (λ b. b ≡ has_large_result (file_of file.now)) }
{
    if has_large_modules(alloc, file, edges)? {
        return Ok(true);
    }
    has_large_labels(alloc, automata, labels)
}

/// Whether the translation would have too many commands or nodes, by the edges of the elements.
fn has_large_modules<'a>(
    alloc: Global,
    file: &'a JaniFile,
    edges: &[ElementEdges<'a>],
) -> Result<bool, AllocError>
    requires { map table_view edges.now ≡ map (table_in (file_of file.now)) (spec.elements (file_of file.now)) }
    ensures { IfOk result (λ b. b ≡ has_many_commands (file_of file.now)) }
{
    let splits = all_splits(alloc, edges, file.vectors.as_slice())?;
    has_too_many(alloc, edges, splits.as_slice())
}

/// Whether the locations of one of these elements give one of these variables too many values.
fn has_large_labels(
    alloc: Global,
    automata: &[ElementAutomaton],
    labels: &[OwnedVar],
) -> Result<bool, AllocError>
    ensures { IfOk result (λ b. b ≡ crowded_from (usable_among (map owned_of labels.now)) 0 (map element_view automata.now)) }
{
    let places = Places::of(alloc, labels)?;
    has_many_values(alloc, automata, &places)
}
