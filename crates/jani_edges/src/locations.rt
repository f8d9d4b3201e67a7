// The one location of each automaton, what that of the first gives, and automata that have it alone.

ghost use Rattle.std.specs.Prelude.{◌≡◌, [], ◌∷◌, map, IfOk};
ghost use Rattle.std.specs.List.{zip};
ghost use Rattle.prism_tree.specs.Syntax as prism;
ghost use Rattle.prism_tree.specs.Syntax.{file_of};
ghost use Rattle.jani_tree.specs.Syntax as jani;
ghost use Rattle.name_table.specs.Asks.{NewNames as NamesOf};
ghost use Rattle.jani_translation.specs.Automata.{loc, label_value, location_values, automaton};
ghost use Rattle.jani_edges.specs.Code.{names_in};

use crate::new_names::Names;
use crate::own_names::loc;
use crate::rewards::{Wanted, add_rewards};
use bridge_io::{List, Named, together};
use gathering::{one_of, shorter};
use jani_tree::{JaniAutomaton, JaniEdge, JaniLocation, JaniWrite};
use name_table::{Entry, instead};
use prism_images::image;
use prism_tree::{PrismFile, PrismLabel};
use std::alloc::{AllocError, Global};

// ---- what the first location gives

/// A label has its expression.
fn label_value(
    alloc: Global,
    l: &PrismLabel,
    e: &Entry,
    names: &Names,
) -> Result<JaniWrite, AllocError>
    ensures { IfOk result (λ r. jani.write_of r ≡ label_value (names_in names.now) (prism.label_of l.now) e.now) }
{
    let name = instead(alloc, &l.name, e.name.as_str());
    let (target, value) = together(name, image(alloc, &l.body, &names.value))?;
    Ok(JaniWrite { target, value })
}

/// The values of labels.
fn label_values(
    alloc: Global,
    labels: &[PrismLabel],
    names: &Names,
) -> Result<List<JaniWrite>, AllocError>
    ensures { IfOk result (λ all. map jani.write_of all ≡
        map (λ p. label_value (names_in names.now) p.0 p.1) (zip (map prism.label_of labels.now) names.now.labels.now)) }
{
    let mut all = List::new(alloc);
    let count = shorter(labels.len(), names.labels.len());
    for i in 0..count {
        all.push(label_value(alloc, &labels[i], &names.labels[i], names)?)?;
    }
    Ok(all)
}

/// Each label has its expression, and each structure its state reward. `Err` is want of memory.
pub fn location_values(
    alloc: Global,
    file: &PrismFile,
    names: &Names,
) -> Result<List<JaniWrite>, AllocError>
    ensures { IfOk result (λ all. map jani.write_of all ≡ location_values (names_in names.now) (file_of file.now)) }
{
    let mut all = label_values(alloc, file.labels.as_slice(), names)?;
    add_rewards(
        alloc,
        &mut all,
        &Wanted::States,
        file.rewards.as_slice(),
        names,
    )?;
    Ok(all)
}

// ---- automata

/// The one location, with these values.
fn one_location(alloc: Global, values: List<JaniWrite>) -> Result<List<JaniLocation>, AllocError>
    ensures { IfOk result (λ all. map jani.location_of all ≡ record { name = loc; values = map jani.write_of values } ∷ []) }
{
    let name = loc(alloc)?;
    one_of(alloc, Ok(JaniLocation { name, values }))
}

/// An automaton with the one location, and no variables of its own. `Err` is want of memory.
pub fn automaton(
    alloc: Global,
    name: Named,
    values: List<JaniWrite>,
    edges: List<JaniEdge>,
) -> Result<JaniAutomaton, AllocError>
    ensures { IfOk result (λ r. (n : NamesOf) → jani.automaton_of r ≡ automaton n name (map jani.write_of values) (map jani.edge_of edges)) }
{
    let (locations, initial) = together(one_location(alloc, values), one_of(alloc, loc(alloc)))?;
    Ok(JaniAutomaton {
        name,
        variables: List::new(alloc),
        locations,
        initial,
        edges,
    })
}
