// The automata that take part, by their names.

ghost use Rattle.std.specs.Prelude.{◌≡◌, List, ℕ, [], false, IfOk, map, length};
ghost use Rattle.jani_tree.specs.Syntax.{automaton_of, element_names, file_of};
ghost use Rattle.jani_check.specs.Participants.{automaton_in, automaton_under, element_shared};
ghost use Rattle.jani_check.specs.Faults.{edge_count};
ghost use Rattle.jani_check.specs.NameLists.{names_under};
ghost use Rattle.jani_check.specs.Rewarding.{element_rewards, rewarded_in};
ghost use Rattle.jani_check.specs.Scopes.{thing_under};
ghost use Rattle.jani_check.specs.Things.{automaton_called, global_thing};
ghost use Rattle.jani_check.specs.TypeFaults.{shared_by, with_automaton};
ghost use Rattle.jani_check.specs.ProfileFaults.{rewards_with};

use crate::shared::shared_names;
use crate::things::Things;
use crate::writers::Rewarding;
use bridge_io::Named;
use gathering::NameLists;
use jani_tree::{JaniAutomaton, JaniFile};
use name_rules::NameMap;
use std::alloc::{AllocError, Global};

/// The automata by their names; the first of one name counts. `Err` is want of memory.
pub fn automata_by_name<'a>(
    alloc: Global,
    automata: &'a [JaniAutomaton],
) -> Result<NameMap<'a, &'a JaniAutomaton>, AllocError>
    ensures { IfOk result (λ t. (x : List ℕ) → automaton_under t x ≡ automaton_in (map automaton_of automata.now) x) }
{
    let mut all = NameMap::new(alloc);
    for a in automata {
        all.put_first(a.name.name.as_str(), a)?;
    }
    Ok(all)
}

/// What the elements of a file assign, in their order.
pub(crate) fn shared_of<'a>(
    alloc: Global,
    file: &'a JaniFile,
    global: &Things,
) -> Result<Vec<NameLists<'a, &'a str>>, AllocError>
    requires { (x : List ℕ) → thing_under global.now x ≡ global_thing (file_of file.now) x }
    ensures { IfOk result (λ list. map names_under list.items ≡ map (element_shared (file_of file.now)) (element_names (file_of file.now))) }
{
    let automata = automata_by_name(alloc, file.automata.as_slice())?;
    each_shared(alloc, file, &automata, global)
}

// The same by the automata of the file.
fn each_shared<'a>(
    alloc: Global,
    file: &JaniFile,
    automata: &NameMap<'a, &'a JaniAutomaton>,
    global: &Things,
) -> Result<Vec<NameLists<'a, &'a str>>, AllocError>
    requires things { (x : List ℕ) → thing_under global.now x ≡ global_thing (file_of file.now) x }
    requires automata { (x : List ℕ) → automaton_under automata.now x ≡ automaton_called (file_of file.now) x }
    ensures { IfOk result (λ list. map names_under list.items ≡ map (element_shared (file_of file.now)) (element_names (file_of file.now))) }
{
    let mut list = Vec::new(alloc);
    for e in file.elements.as_slice() {
        let shared = element_shared(alloc, automata, global, &e.name)?;
        list.push(shared)?;
    }
    Ok(list)
}

fn element_shared<'a>(
    alloc: Global,
    automata: &NameMap<'a, &'a JaniAutomaton>,
    global: &Things,
    e: &Named,
) -> Result<NameLists<'a, &'a str>, AllocError>
    ensures { IfOk result
        (λ lists. (x : List ℕ) → names_under lists x
        ≡ with_automaton (λ a. shared_by (thing_under global.now) a x) [] (automaton_under automata.now e.now.name)) }
{
    match automata.get(e.name.as_str()) {
        Some(a) => shared_names(alloc, global, a),
        None => Ok(NameLists::new(alloc)),
    }
}

/// With which actions the elements of a file assign rewards, in their order.
pub(crate) fn rewarding_of<'a>(
    alloc: Global,
    file: &'a JaniFile,
    global: &Things,
) -> Result<Vec<Rewarding<'a>>, AllocError>
    requires { (x : List ℕ) → thing_under global.now x ≡ global_thing (file_of file.now) x }
    ensures { IfOk result (λ list. map rewarded_in list.items ≡ map (element_rewards (file_of file.now)) (element_names (file_of file.now))) }
{
    let automata = automata_by_name(alloc, file.automata.as_slice())?;
    each_rewarding(alloc, file, &automata, global)
}

// The same by the automata of the file.
fn each_rewarding<'a>(
    alloc: Global,
    file: &JaniFile,
    automata: &NameMap<'a, &'a JaniAutomaton>,
    global: &Things,
) -> Result<Vec<Rewarding<'a>>, AllocError>
    requires things { (x : List ℕ) → thing_under global.now x ≡ global_thing (file_of file.now) x }
    requires automata { (x : List ℕ) → automaton_under automata.now x ≡ automaton_called (file_of file.now) x }
    ensures { IfOk result (λ list. map rewarded_in list.items ≡ map (element_rewards (file_of file.now)) (element_names (file_of file.now))) }
{
    let mut list = Vec::new(alloc);
    for e in file.elements.as_slice() {
        let rewarding = element_rewarding(alloc, automata, global, &e.name)?;
        list.push(rewarding)?;
    }
    Ok(list)
}

fn element_rewarding<'a>(
    alloc: Global,
    automata: &NameMap<'a, &'a JaniAutomaton>,
    global: &Things,
    e: &Named,
) -> Result<Rewarding<'a>, AllocError>
    ensures { IfOk result
        (λ r. (x : List ℕ) → rewarded_in r x
        ≡ with_automaton (λ a. rewards_with (thing_under global.now) a x) false (automaton_under automata.now e.now.name)) }
{
    match automata.get(e.name.as_str()) {
        Some(a) => Rewarding::of(alloc, global, a),
        None => Ok(Rewarding::new(alloc)),
    }
}

/// How many edges the automata that take part have.
pub(crate) fn count_edges(alloc: Global, file: &JaniFile) -> Result<u128, AllocError>
    ensures { IfOk result (λ n. n ≡ edge_count (file_of file.now)) }
{
    let automata = automata_by_name(alloc, file.automata.as_slice())?;
    let mut sum = 0;
    for e in file.elements.as_slice() {
        sum += edges_of(&automata, &e.name) as u128;
    }
    Ok(sum)
}

fn edges_of<'a>(automata: &NameMap<'a, &'a JaniAutomaton>, e: &Named) -> usize
    ensures { result ≡ length (with_automaton (λ a. a.edges) [] (automaton_under automata.now e.now.name)) }
{
    match automata.get(e.name.as_str()) {
        Some(a) => a.edges.len(),
        None => 0,
    }
}
