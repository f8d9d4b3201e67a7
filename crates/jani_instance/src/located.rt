//! The elements: where their own names stand, and their edges by the locations that they start at and by their actions.
ghost use Rattle.std.specs.Prelude.{◌≡◌, ◌+◌, ◌-◌, ◌++◌, ◌<◌, List, ℕ, IfOk, OnOk, length, map};
ghost use Rattle.std.specs.List.{filter, flat_map, range_with_len};
ghost use Rattle.gathering.specs.Lists.{list_for};
ghost use Rattle.jani_tree.specs.Syntax as syntax;
ghost use Rattle.jani_tree.specs.Syntax.{file_of};
ghost use Rattle.jani_instance.specs.Built.{IsNamedElementOf};
ghost use Rattle.jani_instance.specs.Actions.{AreNamedElementsOf, AreNumbered, IsBasis, IsNumbered, IsOwning, acted_by, actions_of, is_silent, lent_edge, located_among, located_at, number_in, starts_at};
ghost use Rattle.jani_instance.specs.Parts.{automaton_at};
ghost use Rattle.jani_instance.specs.Shapes.{acting_of, edge_by, edge_of, located_of};

use crate::acting::{ActionTable, Basis, Numbers, number_of};
use crate::build::{Site, edge, location_in};
use crate::data::{Acting, Edge, Located, NamedElement};
use crate::parts::{Part, Placed, by_owner, edges, global_places, locations, own_places};
use gathering::NumberLists;
use instance_start::Place;
use jani_tree::{JaniEdge, JaniExpr};
use name_rules::NameMap;
use std::alloc::{AllocError, Global};

/// Which columns and reward structures elements own, and which reward structures are global.
#[derive(Drop)]
pub(crate) struct Owning<'a> {
    pub(crate) columns: NumberLists<Placed<'a>>,
    pub(crate) structures: NumberLists<Placed<'a>>,
    pub(crate) global: NameMap<'a, Place>,
}

/// The elements of a file.
pub(crate) fn elements<'s, 'a>(
    alloc: Global,
    basis: &Basis<'s, 'a>,
) -> Result<Vec<NamedElement<'a>>, AllocError>
    requires { IsBasis basis.now }
    ensures { IfOk result (λ es. AreNamedElementsOf (file_of basis.now.file.now) es.items) }
{
    let owning = owning_of(alloc, basis)?;
    each_element(alloc, basis, &owning)
}

/// Which columns and reward structures elements own, and which reward structures are global.
fn owning_of<'s, 'a>(alloc: Global, basis: &Basis<'s, 'a>) -> Result<Owning<'a>, AllocError>
    requires { IsBasis basis.now }
    ensures { IfOk result (IsOwning (file_of basis.now.file.now)) }
{
    let _count = basis.structures.len();
    let columns = by_owner(alloc, basis.lasting, basis.parts.len())?;
    let structures = by_owner(alloc, basis.structures, 0)?;
    let global = global_places(alloc, basis.structures, 0)?;
    Ok(Owning {
        columns,
        structures,
        global,
    })
}

/// The same by what each element owns.
fn each_element<'s, 'a>(
    alloc: Global,
    basis: &Basis<'s, 'a>,
    owning: &Owning<'a>,
) -> Result<Vec<NamedElement<'a>>, AllocError>
    requires basis { IsBasis basis.now }
    requires owning { IsOwning (file_of basis.now.file.now) owning.now }
    ensures { IfOk result (λ es. AreNamedElementsOf (file_of basis.now.file.now) es.items) }
{
    let mut all = Vec::with_capacity(alloc, basis.parts.len())?;
    for (i, part) in basis.parts.iter().enumerate() {
        all.push(element(alloc, basis, i, *part, &basis.actions[i], owning)?)?;
    }
    Ok(all)
}

/// An element of a file.
fn element<'s, 'a>(
    alloc: Global,
    basis: &Basis<'s, 'a>,
    i: usize,
    part: Part<'a, 'a>,
    numbers: &'s Numbers<'a>,
    owning: &Owning<'a>,
) -> Result<NamedElement<'a>, AllocError>
    requires basis { IsBasis basis.now }
    requires numbers { IsNumbered (automaton_at part) numbers.now }
    requires owning { IsOwning (file_of basis.now.file.now) owning.now }
    ensures { IfOk result (λ e. IsNamedElementOf (file_of basis.now.file.now) (actions_of (automaton_at part.entry)) i (automaton_at part.entry) e) }
{
    let own = own_places(alloc, owning.columns.get(i))?;
    let structures = own_places(alloc, owning.structures.get(i))?;
    let site = site_of(basis, part, &own, &structures, &owning.global, numbers);
    let locations = all_located(alloc, edges(part), &numbers.actions, site)?;
    Ok(NamedElement { own, locations })
}

/// Where the edges of an element stand.
fn site_of<'o, 's, 'a>(
    basis: &Basis<'s, 'a>,
    part: Part<'a, 'a>,
    own: &'o NameMap<'a, Place>,
    own_structures: &'o NameMap<'a, Place>,
    structures: &'o NameMap<'a, Place>,
    numbers: &'s Numbers<'a>,
) -> Site<'o, 's, 'a>
    ensures part { result.part ≡ part.entry }
    ensures own { result.own ≡ own.entry }
    ensures own_structures { result.own_structures ≡ own_structures.entry }
    ensures locations { result.locations.now ≡ numbers.entry.now.locations }
    ensures places { result.places ≡ basis.now.places }
    ensures structures { result.structures ≡ structures.entry }
{
    Site {
        part,
        own,
        own_structures,
        locations: &numbers.locations,
        places: basis.places,
        structures,
    }
}

/// The edges of an element at each of its locations.
fn all_located<'a>(
    alloc: Global,
    these: &'a [JaniEdge],
    actions: &ActionTable,
    site: Site,
) -> Result<Vec<Located<&'a JaniExpr>>, AllocError>
    requires { AreNumbered (actions_of (automaton_at site.part)) actions.now }
    ensures { IfOk result (λ ls. map located_of ls.items
        ≡ map (located_at site.entry (map syntax.edge_of these.entry.now)) (range_with_len 0 (length (automaton_at site.entry.part).locations - 1 + 1))) }
{
    let starting = by_location(alloc, these, &site)?;
    each_located(alloc, &starting, actions, &site)
}

fn each_located<'a>(
    alloc: Global,
    starting: &NumberLists<&'a JaniEdge>,
    actions: &ActionTable,
    site: &Site,
) -> Result<Vec<Located<&'a JaniExpr>>, AllocError>
    requires { AreNumbered (actions_of (automaton_at site.now.part)) actions.now }
    ensures { IfOk result (λ ls. map located_of ls.items
        ≡ map (λ n. located_among site.now (map lent_edge (list_for starting.now n))) (range_with_len 0 (length (automaton_at site.now.part).locations - 1 + 1))) }
{
    let mut all = Vec::new(alloc);
    for n in 0..location_count(site.part) {
        all.push(located(alloc, starting.get(n), actions, site)?)?;
    }
    Ok(all)
}

/// How many locations there are to stand at; without any there is the number 0 all the same.
fn location_count(part: Part) -> usize
    ensures { result ≡ length (automaton_at part.entry).locations - 1 + 1 }
{
    match locations(part).len() {
        0 => 1,
        n => n,
    }
}

/// The edges that start at each location.
fn by_location<'a>(
    alloc: Global,
    these: &'a [JaniEdge],
    site: &Site,
) -> Result<NumberLists<&'a JaniEdge>, AllocError>
    ensures { IfOk result (λ b. (n : ℕ) → map lent_edge (list_for b n) ≡ filter (starts_at site.now n) (map syntax.edge_of these.entry.now)) }
{
    let mut all = NumberLists::new(alloc);
    for edge in these {
        all.add(alloc, location_in(site, edge.location.name.as_str()), edge)?;
    }
    Ok(all)
}

/// The edges of a location.
fn located<'a>(
    alloc: Global,
    these: &[&'a JaniEdge],
    actions: &ActionTable,
    site: &Site,
) -> Result<Located<&'a JaniExpr>, AllocError>
    requires { AreNumbered (actions_of (automaton_at site.now.part)) actions.now }
    ensures { IfOk result (λ l. located_of l ≡ located_among site.now (map lent_edge these.now)) }
{
    let silent = silent(alloc, these, site)?;
    let acting = acting(alloc, these, actions, site)?;
    Ok(Located {
        silent,
        acting,
        actions: actions.count,
    })
}

/// What is kept of those with an action.
fn acting<'a>(
    alloc: Global,
    these: &[&'a JaniEdge],
    actions: &ActionTable,
    site: &Site,
) -> Result<Vec<Acting<&'a JaniExpr>>, AllocError>
    ensures { IfOk result (λ es. map acting_of es.items ≡ flat_map (acted_by (number_in actions.now) site.now) (map lent_edge these.now)) }
{
    let mut all = Vec::new(alloc);
    for e in these {
        add_acting(alloc, &mut all, e, actions, site)?;
    }
    Ok(all)
}

/// What is kept of an edge besides, if it has an action.
fn add_acting<'a>(
    alloc: Global,
    all: &mut Vec<Acting<&'a JaniExpr>>,
    e: &'a JaniEdge,
    actions: &ActionTable,
    site: &Site,
) -> Result<(), AllocError>
    ensures { OnOk result (map acting_of all.new.items ≡ map acting_of all.old.items ++ acted_by (number_in actions.now) site.now (syntax.edge_of e.entry.now)) }
{
    match &e.action {
        Some(name) => {
            let action = number_of(actions, name.name.as_str());
            let edge = edge(alloc, e, site)?;
            all.push(Acting { action, edge })?;
            Ok(())
        }
        None => Ok(()),
    }
}

/// What is kept of those without action.
fn silent<'a>(
    alloc: Global,
    these: &[&'a JaniEdge],
    site: &Site,
) -> Result<Vec<Edge<&'a JaniExpr>>, AllocError>
    ensures { IfOk result (λ es. map edge_of es.items ≡ map (edge_by site.now) (filter is_silent (map lent_edge these.now))) }
{
    let mut all = Vec::new(alloc);
    for e in these {
        match &e.action {
            Some(_) => {}
            None => all.push(edge(alloc, e, site)?)?,
        }
    }
    Ok(all)
}
