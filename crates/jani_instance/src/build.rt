//! What is kept of the edges of an element: the numbers of the columns, structures and locations that they name.
ghost use Rattle.std.specs.Prelude.{◌≡◌, IfOk, map};
ghost use Rattle.std.specs.List.{flat_map};
ghost use Rattle.std.specs.Option.{option_map};
ghost use Rattle.op_trees.specs.Tree.{tree};
ghost use Rattle.jani_tree.specs.Syntax as syntax;
ghost use Rattle.jani_instance.specs.Shapes.{assigned_by, assigned_of, column_in, destination_by, destination_of, edge_by, edge_of, location_in, structure_in, variable_at};

use crate::columns::counted;
use crate::data::{Assignment, Destination, Edge};
use crate::parts::Part;
use instance_start::Place;
use jani_tree::{JaniDestination, JaniEdge, JaniExpr, JaniWrite};
use name_rules::NameMap;
use std::alloc::{AllocError, Global};

/// An element: its automaton, where its own names stand, which of them are reward structures, the numbers of its locations, where
/// global names stand, and which of them are reward structures.
#[derive(Clone, Copy)]
pub(crate) struct Site<'o, 's, 'a> {
    pub(crate) part: Part<'a, 'a>,
    pub(crate) own: &'o NameMap<'a, Place>,
    pub(crate) own_structures: &'o NameMap<'a, Place>,
    pub(crate) locations: &'s NameMap<'a, usize>,
    pub(crate) places: &'s NameMap<'a, Place>,
    pub(crate) structures: &'o NameMap<'a, Place>,
}

/// The number of a location.
pub(crate) fn location_in(site: &Site, name: &str) -> usize
    ensures { result ≡ location_in site.now name.now }
{
    site.locations.get(name).unwrap_or(0)
}

/// The column that a name stands for.
fn column_in(site: &Site, name: &str) -> Option<usize>
    ensures { result ≡ column_in site.now name.now }
{
    match site.own.get(name) {
        Some(place) => variable_at(Some(place)),
        None => variable_at(site.places.get(name)),
    }
}

/// The number of the variable that stands at a place.
fn variable_at(place: Option<Place>) -> Option<usize>
    ensures { result ≡ variable_at place }
{
    match place {
        Some(Place::Variable(k)) => Some(k),
        _ => None,
    }
}

/// The reward structure that a name stands for.
fn structure_in(site: &Site, name: &str) -> Option<usize>
    ensures { result ≡ structure_in site.now name.now }
{
    match site.own_structures.get(name) {
        Some(place) => variable_at(Some(place)),
        None => variable_at(site.structures.get(name)),
    }
}

/// The assignments to columns.
fn writes<'a>(
    alloc: Global,
    writes: &'a [JaniWrite],
    site: &Site,
) -> Result<Vec<Assignment<&'a JaniExpr>>, AllocError>
    ensures { IfOk result (λ ws. map assigned_of ws.items ≡ flat_map (assigned_by (column_in site.now)) (map syntax.write_of writes.entry.now)) }
{
    let mut all = Vec::new(alloc);
    for write in writes {
        match column_in(site, write.target.name.as_str()) {
            Some(place) => all.push(assignment(place, write))?,
            None => {}
        }
    }
    Ok(all)
}

fn assignment<'a>(place: usize, write: &'a JaniWrite) -> Assignment<&'a JaniExpr>
    ensures { assigned_of result ≡ record { place = place; value = (syntax.write_of write.entry.now).value } }
{
    Assignment {
        place,
        value: &write.value,
    }
}

/// The assignments to reward structures.
fn rewards<'a>(
    alloc: Global,
    writes: &'a [JaniWrite],
    site: &Site,
) -> Result<Vec<Assignment<&'a JaniExpr>>, AllocError>
    ensures { IfOk result (λ ws. map assigned_of ws.items ≡ flat_map (assigned_by (structure_in site.now)) (map syntax.write_of writes.entry.now)) }
{
    let mut all = Vec::new(alloc);
    for write in writes {
        match structure_in(site, write.target.name.as_str()) {
            Some(place) => all.push(assignment(place, write))?,
            None => {}
        }
    }
    Ok(all)
}

/// An expression, if there is one.
fn lent<'a>(e: &'a Option<JaniExpr>) -> Option<&'a JaniExpr>
    ensures { option_map (λ e. tree e.now) result ≡ option_map tree e.entry.now }
{
    match e {
        Some(e) => Some(e),
        None => None,
    }
}

/// What is kept of a destination.
fn destination<'a>(
    alloc: Global,
    d: &'a JaniDestination,
    site: &Site,
) -> Result<Destination<&'a JaniExpr>, AllocError>
    ensures { IfOk result (λ r. destination_of r ≡ destination_by site.now (syntax.destination_of d.entry.now)) }
{
    let to_columns = writes(alloc, d.writes.as_slice(), site)?;
    let to_structures = rewards(alloc, d.writes.as_slice(), site)?;
    Ok(Destination {
        location: counted(location_in(site, d.location.name.as_str())),
        weight: lent(&d.weight),
        writes: to_columns,
        rewards: to_structures,
    })
}

fn destinations<'a>(
    alloc: Global,
    ds: &'a [JaniDestination],
    site: &Site,
) -> Result<Vec<Destination<&'a JaniExpr>>, AllocError>
    ensures { IfOk result (λ rs. map destination_of rs.items ≡ map (destination_by site.now) (map syntax.destination_of ds.entry.now)) }
{
    let mut all = Vec::with_capacity(alloc, ds.len())?;
    for d in ds {
        all.push(destination(alloc, d, site)?)?;
    }
    Ok(all)
}

/// What is kept of an edge.
pub(crate) fn edge<'a>(
    alloc: Global,
    e: &'a JaniEdge,
    site: &Site,
) -> Result<Edge<&'a JaniExpr>, AllocError>
    ensures { IfOk result (λ r. edge_of r ≡ edge_by site.now (syntax.edge_of e.entry.now)) }
{
    let destinations = destinations(alloc, e.destinations.as_slice(), site)?;
    Ok(Edge {
        guard: lent(&e.guard),
        destinations,
    })
}
