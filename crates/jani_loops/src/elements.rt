// The elements of a file as automata with loops.

ghost use Rattle.std.specs.Prelude.{◌≡◌, IfOk, map, not, nat_eq, length};
ghost use Rattle.std.specs.List.{list_any};
ghost use Rattle.jani_tree.specs.Syntax.{automaton_of, element_of, file_of};
ghost use Rattle.jani_meaning.specs.Elements.{nothing_called};
ghost use Rattle.jani_meaning.specs.Loops.{with_loops};
ghost use Rattle.jani_loops.specs.Looped.{IsLooped, accepts, automaton_or_nothing, element_under};

use crate::loops::add_loops;
use bridge_io::{List, Named};
use jani_check::automata_by_name;
use jani_tree::{JaniAutomaton, JaniElement, JaniFile, copy_automaton, copy_name};
use name_rules::NameMap;
use std::alloc::{AllocError, Global};

/// How many edges a loop may stand for where its guard is evaluated, as those of an instance are.
pub const EVALUATED: usize = 2_048;

/// How many loops a file may have. They are actions times locations, so a short file could have any number of them. Elements with
/// one such action each, or with one location, can't have more in a file that is read: each takes four bytes at least.
const LOOPS: usize = 4_194_304;

/// The elements of a file as automata with loops, if some element accepts an action everywhere. Where none does, each element is
/// its automaton as it stands in the file. `Err` is want of memory, which more loops than `LOOPS` are answered with, too, and a loop
/// that stands for more edges than `most`: its guard is as high as they are many, and whatever goes through an expression needs stack
/// for each level.
pub fn looped(
    alloc: Global,
    file: &JaniFile,
    most: usize,
) -> Result<Option<List<JaniAutomaton>>, AllocError>
    ensures { IfOk result (IsLooped (file_of file.now)) }
{
    if !some_accepts(file.elements.as_slice()) {
        return Ok(None);
    }
    let automata = automata_by_name(alloc, file.automata.as_slice())?;
    if loop_count(&automata, file.elements.as_slice()) > LOOPS {
        return Err(AllocError);
    }
    Ok(Some(each_looped(alloc, &automata, file.elements.as_slice(), most)?))
}

/// Whether some element accepts an action everywhere.
fn some_accepts(elements: &[JaniElement]) -> bool
    ensures { result ≡ list_any (λ e. accepts (element_of e)) elements.now }
{
    elements.iter().any(|e| e.enable.len() != 0)
}

/// How many loops the elements have: one for each action that an element accepts everywhere and each location of its automaton.
fn loop_count(automata: &NameMap<&JaniAutomaton>, elements: &[JaniElement]) -> usize {
    let mut count: usize = 0;
    for e in elements {
        if let Some(a) = automata.get(e.name.name.as_str()) {
            count = count.saturating_add(a.locations.len().saturating_mul(e.enable.len()));
        }
    }
    count
}

/// The elements as automata with loops, where these are the automata by their names.
fn each_looped(
    alloc: Global,
    automata: &NameMap<&JaniAutomaton>,
    elements: &[JaniElement],
    most: usize,
) -> Result<List<JaniAutomaton>, AllocError>
    ensures { IfOk result (λ all. map automaton_of all ≡ map (element_under automata.now) (map element_of elements.now)) }
{
    let mut all = List::with_capacity(alloc, elements.len())?;
    for e in elements {
        let made = element(alloc, automata.get(e.name.name.as_str()), e, most)?;
        all.push(made)?;
    }
    Ok(all)
}

/// An element as an automaton with loops.
fn element(
    alloc: Global,
    automaton: Option<&JaniAutomaton>,
    e: &JaniElement,
    most: usize,
) -> Result<JaniAutomaton, AllocError>
    ensures { IfOk result (λ a. automaton_of a ≡ with_loops e.now.enable (automaton_or_nothing automaton.entry e.now.name)) }
{
    match automaton {
        Some(a) => with_loops(alloc, a, e.enable.as_slice(), most),
        None => {
            let a = nothing(alloc, &e.name)?;
            with_loops(alloc, &a, e.enable.as_slice(), most)
        }
    }
}

/// An automaton that has nothing.
fn nothing(alloc: Global, name: &Named) -> Result<JaniAutomaton, AllocError>
    ensures { IfOk result (λ a. automaton_of a ≡ nothing_called name.now) }
{
    let name = copy_name(alloc, name)?;
    Ok(JaniAutomaton {
        name,
        variables: List::new(alloc),
        locations: List::new(alloc),
        initial: List::new(alloc),
        edges: List::new(alloc),
    })
}

/// A copy of an automaton with the loops for these actions behind its edges.
fn with_loops(
    alloc: Global,
    a: &JaniAutomaton,
    actions: &[Named],
    most: usize,
) -> Result<JaniAutomaton, AllocError>
    ensures { IfOk result (λ r. automaton_of r ≡ with_loops actions.now (automaton_of a.now)) }
{
    let mut copy = copy_automaton(alloc, a)?;
    add_loops(alloc, &mut copy.edges, a, actions, most)?;
    Ok(copy)
}
