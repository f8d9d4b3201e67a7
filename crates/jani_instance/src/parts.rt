//! The elements of a file with their automata, and its variables.
ghost use Rattle.std.specs.Prelude.{◌≡◌, ◌++◌, ◌+◌, ◌<◌, ◌^◌, List, ℕ, IfOk, OnOk, Some, None, bytes_eq, is_none, length, map, if◌then◌else◌};
ghost use Rattle.std.specs.List.{filter, position};
ghost use Rattle.std.specs.Option.{option_map, option_or};
ghost use Rattle.name_rules.specs.Names.{under};
ghost use Rattle.gathering.specs.Lists.{list_for};
ghost use Rattle.process_core.specs.Instance.{numbered};
ghost use Rattle.jani_tree.specs.Syntax.{automaton_of, const_of, edge_of, file_of, location_of, var_of};
ghost use Rattle.jani_meaning.specs.Elements.{elements, is_global, is_label, is_lasting, is_own, is_structure, owned_by};
ghost use Rattle.instance_start.specs.declared.data.Place.TheVariants.{Variable};
ghost use Rattle.jani_instance.specs.Constants.{constant_place};
ghost use Rattle.jani_loops.specs.Looped.{IsLooped};
ghost use Rattle.jani_instance.specs.Parts.{automaton_at, automaton_by, looped_by, named_automaton, owned_at, place_under};

use bridge_io::{List, Named};
use gathering::NumberLists;
use instance_start::Place;
use jani_check::automata_by_name;
use jani_tree::{
    JaniAutomaton, JaniConst, JaniEdge, JaniElement, JaniFile, JaniKind, JaniLocation, JaniVar,
};
use name_rules::NameMap;
use std::alloc::{AllocError, Global};

/// An element, the automaton that it names, and its edges: those of the automaton, and the loops of actions that the element
/// accepts everywhere.
#[derive(Clone, Copy)]
pub(crate) struct Part<'a, 'e> {
    pub(crate) name: &'a Named,
    pub(crate) automaton: Option<&'a JaniAutomaton>,
    pub(crate) edges: &'e [JaniEdge],
}

/// A variable, and the number of the element that it belongs to.
#[derive(Clone, Copy)]
pub(crate) struct Owned<'a> {
    pub(crate) owner: Option<usize>,
    pub(crate) var: &'a JaniVar,
}

/// The elements, where these are their automata with loops, if there are loops.
pub(crate) fn parts<'a: 'e, 'e>(
    alloc: Global,
    file: &'a JaniFile,
    looped: &'e Option<List<JaniAutomaton>>,
) -> Result<Vec<Part<'a, 'e>>, AllocError>
    requires { IsLooped (file_of file.now) looped.now }
    ensures { IfOk result (λ ps. map automaton_at ps.items ≡ elements (file_of file.entry.now)) }
{
    let automata = automata_by_name(alloc, file.automata.as_slice())?;
    match looped {
        Some(all) => looped_parts(alloc, file.elements.as_slice(), &automata, all.as_slice()),
        None => plain_parts(alloc, file.elements.as_slice(), &automata),
    }
}

/// An element without loops.
fn plain<'a>(name: &'a Named, automaton: Option<&'a JaniAutomaton>) -> Part<'a, 'a>
    ensures { automaton_at result ≡ named_automaton automaton.entry name.entry.now }
{
    match automaton {
        Some(a) => Part {
            name,
            automaton,
            edges: a.edges.as_slice(),
        },
        None => Part {
            name,
            automaton,
            edges: &[],
        },
    }
}

/// The elements, none of which has loops.
fn plain_parts<'a>(
    alloc: Global,
    elements: &'a [JaniElement],
    automata: &NameMap<'a, &'a JaniAutomaton>,
) -> Result<Vec<Part<'a, 'a>>, AllocError>
    ensures { IfOk result (λ ps. map automaton_at ps.items ≡ map (λ e. automaton_by automata.now e.name) elements.entry.now) }
{
    let mut all = Vec::with_capacity(alloc, elements.len())?;
    for e in elements {
        all.push(plain(&e.name, automata.get(e.name.name.as_str())))?;
    }
    Ok(all)
}

/// The elements, where these are their automata with loops.
fn looped_parts<'a, 'e>(
    alloc: Global,
    elements: &'a [JaniElement],
    automata: &NameMap<'a, &'a JaniAutomaton>,
    looped: &'e [JaniAutomaton],
) -> Result<Vec<Part<'a, 'e>>, AllocError>
    requires { map automaton_of looped.now ≡ map (λ e. looped_by automata.now e) elements.now }
    ensures { IfOk result (λ ps. map automaton_at ps.items ≡ map (λ e. looped_by automata.now e) elements.entry.now) }
{
    let mut all = Vec::with_capacity(alloc, elements.len())?;
    for i in 0..elements.len() {
        let e = &elements[i];
        let automaton = automata.get(e.name.name.as_str());
        all.push(Part {
            name: &e.name,
            automaton,
            edges: looped[i].edges.as_slice(),
        })?;
    }
    Ok(all)
}

/// The element's own variables.
pub(crate) fn own_variables<'a, 'e>(part: Part<'a, 'e>) -> &'a [JaniVar]
    ensures { map var_of result.now ≡ (automaton_at part.entry).variables }
{
    match part.automaton {
        Some(automaton) => automaton.variables.as_slice(),
        None => &[],
    }
}

/// The element's locations.
pub(crate) fn locations<'a, 'e>(part: Part<'a, 'e>) -> &'a [JaniLocation]
    ensures { map location_of result.now ≡ (automaton_at part.entry).locations }
{
    match part.automaton {
        Some(automaton) => automaton.locations.as_slice(),
        None => &[],
    }
}

/// The element's initial locations.
pub(crate) fn initial<'a, 'e>(part: Part<'a, 'e>) -> &'a [Named]
    ensures { result.now ≡ (automaton_at part.entry).initial }
{
    match part.automaton {
        Some(automaton) => automaton.initial.as_slice(),
        None => &[],
    }
}

/// The element's edges.
pub(crate) fn edges<'a, 'e>(part: Part<'a, 'e>) -> &'e [JaniEdge]
    ensures { map edge_of result.now ≡ (automaton_at part.entry).edges }
{
    part.edges
}

/// The global variables, then the own ones of each element.
pub(crate) fn variables<'a, 'e>(
    alloc: Global,
    global: &'a [JaniVar],
    parts: &[Part<'a, 'e>],
) -> Result<Vec<Owned<'a>>, AllocError>
    ensures { IfOk result (λ os. map owned_at os.items
        ≡ owned_by None (map var_of global.entry.now) ++ numbered (λ i a. owned_by (Some i) a.variables) 0 (map automaton_at parts.now)) }
{
    let mut all = Vec::new(alloc);
    push_owned(&mut all, None, global)?;
    for (i, part) in parts.iter().enumerate() {
        push_owned(&mut all, Some(i), own_variables(*part))?;
    }
    Ok(all)
}

fn push_owned<'a>(
    all: &mut Vec<Owned<'a>>,
    owner: Option<usize>,
    vars: &'a [JaniVar],
) -> Result<(), AllocError>
    ensures { OnOk result (map owned_at all.new.items ≡ map owned_at all.old.items ++ owned_by owner (map var_of vars.entry.now)) }
{
    for var in vars {
        all.push(Owned { owner, var })?;
    }
    Ok(())
}

/// The variables that are columns.
pub(crate) fn lasting<'a>(alloc: Global, all: &[Owned<'a>]) -> Result<Vec<Owned<'a>>, AllocError>
    ensures { IfOk result (λ os. os.items ≡ filter (λ o. is_lasting (owned_at o)) all.now) }
{
    all.iter()
        .filter(|o| !o.var.transient)
        .copied()
        .collect(alloc)
}

/// The labels.
pub(crate) fn labels<'a>(alloc: Global, all: &[Owned<'a>]) -> Result<Vec<Owned<'a>>, AllocError>
    ensures { IfOk result (λ os. os.items ≡ filter (λ o. is_label (owned_at o)) all.now) }
{
    all.iter().filter(|o| is_label(**o)).copied().collect(alloc)
}

fn is_label(o: Owned) -> bool
    ensures { result ≡ is_label (owned_at o.entry) }
{
    match o.var.kind {
        JaniKind::Bool => o.var.transient,
        _ => false,
    }
}

/// The reward structures.
pub(crate) fn structures<'a>(alloc: Global, all: &[Owned<'a>]) -> Result<Vec<Owned<'a>>, AllocError>
    ensures { IfOk result (λ os. os.items ≡ filter (λ o. is_structure (owned_at o)) all.now) }
{
    all.iter()
        .filter(|o| is_structure(**o))
        .copied()
        .collect(alloc)
}

fn is_structure(o: Owned) -> bool
    ensures { result ≡ is_structure (owned_at o.entry) }
{
    match o.var.kind {
        JaniKind::Bool => false,
        _ => o.var.transient,
    }
}

// ---- where names stand

/// Where a name stands.
#[derive(Clone, Copy)]
pub(crate) struct Placed<'a> {
    pub(crate) name: &'a str,
    pub(crate) place: Place,
}

/// The own ones of these variables for each element. They are counted from a number on.
pub(crate) fn by_owner<'a>(
    alloc: Global,
    vars: &[Owned<'a>],
    first: usize,
) -> Result<NumberLists<Placed<'a>>, AllocError>
    requires { first + length vars.now < 2 ^ 64 }
    ensures { IfOk result (λ b. (i : ℕ) (x : List ℕ) → place_under x (list_for b i) ≡ option_map (λ k. Variable (first + k)) (position (is_own i x) (map owned_at vars.now))) }
{
    let mut all = NumberLists::new(alloc);
    for (k, o) in vars.iter().enumerate() {
        add_own(alloc, &mut all, *o, Place::Variable(first + k))?;
    }
    Ok(all)
}

/// A variable besides, if an element owns it.
fn add_own<'a>(
    alloc: Global,
    all: &mut NumberLists<Placed<'a>>,
    o: Owned<'a>,
    place: Place,
) -> Result<(), AllocError>
    ensures { OnOk result
        ((i : ℕ) (x : List ℕ) → place_under x (list_for all.new i) ≡ option_or (place_under x (list_for all.old i)) (if is_own i x (owned_at o.entry) then Some place else None)) }
{
    match o.owner {
        Some(i) => {
            let name = o.var.name.name.as_str();
            all.add(alloc, i, Placed { name, place })?;
            Ok(())
        }
        None => Ok(()),
    }
}

/// An element's own variables by their names.
pub(crate) fn own_places<'a>(
    alloc: Global,
    these: &[Placed<'a>],
) -> Result<NameMap<'a, Place>, AllocError>
    ensures { IfOk result (λ m. (x : List ℕ) → under m x ≡ place_under x these.now) }
{
    let mut places = NameMap::new(alloc);
    for j in 0..these.len() {
        put_own(&mut places, &these[j])?;
    }
    Ok(places)
}

fn put_own<'a>(places: &mut NameMap<'a, Place>, one: &Placed<'a>) -> Result<(), AllocError>
    ensures { OnOk result ((x : List ℕ) → under places.new x ≡ option_or (under places.old x) (if bytes_eq one.now.name.now x then Some one.now.place else None)) }
{
    places.put_first(one.name, one.place)?;
    Ok(())
}

/// The global ones of these variables. They are counted from a number on.
pub(crate) fn global_places<'a>(
    alloc: Global,
    vars: &[Owned<'a>],
    first: usize,
) -> Result<NameMap<'a, Place>, AllocError>
    requires { first + length vars.now < 2 ^ 64 }
    ensures { IfOk result (λ m. (x : List ℕ) → under m x ≡ option_map (λ k. Variable (first + k)) (position (is_global x) (map owned_at vars.now))) }
{
    let mut places = NameMap::new(alloc);
    for (k, o) in vars.iter().enumerate() {
        if is_unowned(o.owner) {
            places.put_first(o.var.name.name.as_str(), Place::Variable(first + k))?;
        }
    }
    Ok(places)
}

fn is_unowned(owner: Option<usize>) -> bool
    ensures { result ≡ is_none owner }
{
    match owner {
        Some(_) => false,
        None => true,
    }
}

/// The constants besides.
pub(crate) fn add_constants<'a>(
    places: &mut NameMap<'a, Place>,
    constants: &'a [JaniConst],
) -> Result<(), AllocError>
    ensures { OnOk result ((x : List ℕ) → under places.new x ≡ option_or (under places.old x) (constant_place (map const_of constants.entry.now) x)) }
{
    for (k, constant) in constants.iter().enumerate() {
        places.put_first(constant.name.name.as_str(), Place::Constant(k))?;
    }
    Ok(())
}
