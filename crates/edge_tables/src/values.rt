// Boolean transient variables that the locations of one element give many values.

ghost use Rattle.std.specs.Prelude.{◌≡◌, ◌+◌, List as ListOf, ℕ, length, map, IfOk, OnOk};
ghost use Rattle.std.specs.List.{filter, list_any};
ghost use Rattle.op_trees.specs.Tree.{capped};
ghost use Rattle.jani_tree.specs.Syntax.{Automaton, write_of};
ghost use Rattle.jani_loops.specs.Elements.{element_view};
ghost use Rattle.op_trees.specs.Names.{is_called};
ghost use Rattle.edge_tables.specs.Counts.{crowded_from, is_crowded, some_crowded};
ghost use Rattle.edge_tables.specs.Code.{AreCounts, sum_under, usable_in};

use crate::places::Places;
use crate::sums::Sums;
use jani_loops::ElementAutomaton;
use jani_tree::JaniWrite;
use std::alloc::{AllocError, Global};

// The limit on the values that the locations of one element give one boolean transient variable.
const VALUE_LIMIT: u64 = 1_024;

/// Whether the locations of some element give one of the variables at these places too many values. `Err` is want of memory.
pub fn has_many_values(
    alloc: Global,
    automata: &[ElementAutomaton],
    labels: &Places,
) -> Result<bool, AllocError>
    ensures { IfOk result (λ b. b ≡ crowded_from (usable_in labels.now) 0 (map element_view automata.now)) }
{
    for (k, a) in automata.iter().enumerate() {
        if is_crowded(alloc, a, k, labels)? {
            return Ok(true);
        }
    }
    Ok(false)
}

/// Whether the locations of this element do.
fn is_crowded(
    alloc: Global,
    a: &ElementAutomaton,
    element: usize,
    labels: &Places,
) -> Result<bool, AllocError>
    ensures { IfOk result (λ b. b ≡ some_crowded (usable_in labels.now element) (element_view a.now)) }
{
    let counts = value_counts(alloc, a)?;
    for l in a.locations() {
        if has_crowded(&counts, l.values.as_slice(), element, labels) {
            return Ok(true);
        }
    }
    Ok(false)
}

/// Whether one of these values is for one of the variables, and this has too many values.
fn has_crowded(counts: &Sums, values: &[JaniWrite], element: usize, labels: &Places) -> bool
    ensures { (a : Automaton) → AreCounts counts.now a →
        result ≡ list_any (is_crowded (usable_in labels.now element) a) (map write_of values.now) }
{
    for w in values {
        let name = w.target.name.as_str();
        if counts.get(name) > VALUE_LIMIT && labels.place(element, name).is_some() {
            return true;
        }
    }
    false
}

/// How many values the locations of an element give to each name.
fn value_counts<'a>(alloc: Global, a: &ElementAutomaton<'a>) -> Result<Sums<'a>, AllocError>
    ensures { IfOk result (λ t. AreCounts t (element_view a.now)) }
{
    let mut counts = Sums::new(alloc);
    for l in a.locations() {
        add_values(&mut counts, l.values.as_slice())?;
    }
    Ok(counts)
}

/// Counts these values.
fn add_values<'a>(counts: &mut Sums<'a>, values: &'a [JaniWrite]) -> Result<(), AllocError>
    ensures { OnOk result ((x : ListOf ℕ) → capped (sum_under counts.new x)
        ≡ capped (sum_under counts.old x + length (filter (λ w. is_called x w.target) (map write_of values.now)))) }
{
    for w in values {
        counts.add(w.target.name.as_str(), 1)?;
    }
    Ok(())
}
