//! Elements and transient variables prepared: their expressions put into a store, with names resolved to places.
ghost use Rattle.std.specs.Prelude.{◌≡◌, IfOk, map};
ghost use Rattle.std.specs.Option.{option_map};
ghost use Rattle.expr_store.specs.Views.{nodes};
ghost use Rattle.jani_instance.specs.Prepared.{IsPrepared, places_at, places_in, places_of, see_from};
ghost use Rattle.jani_instance.specs.Shapes.{acting_as, assigned_as, destination_as, edge_as, giver_as, located_as, transient_as};

use crate::data::{
    Acting, Assignment, Destination, Edge, Element, Giver, Located, NamedElement, Transient,
};
use expr_store::{ExprId, ExprStore, Scope};
use instance_start::Place;
use jani_table::JaniOp;
use jani_tree::JaniExpr;
use name_rules::NameMap;
use std::alloc::{AllocError, Global};

/// Where names stand in an element: its own ones, and the global ones.
#[derive(Clone, Copy)]
pub(crate) struct Inside<'s, 'a> {
    pub(crate) own: &'s NameMap<'a, Place>,
    pub(crate) places: &'s NameMap<'a, Place>,
}

impl<'s, 'a> Scope for Inside<'s, 'a> {
    ghost use Rattle.jani_instance.specs.Prepared.{places_in};

    ghost places = { places_in };

    fn place(&self, name: &str) -> Option<Place> {
        match self.own.get(name) {
            Some(place) => Some(place),
            None => self.places.get(name),
        }
    }
}

// ---- edges

/// An expression, if there is one.
fn expression(
    e: Option<&JaniExpr>,
    scope: &Inside,
    store: &mut ExprStore<JaniOp>,
) -> Result<Option<ExprId>, AllocError>
    ensures { IfOk result (λ p. IsPrepared (nodes store.old) (nodes store.new) (λ look. option_map look p) (λ at. option_map (see_from (places_in scope.now) at) e.entry)) }
{
    match e {
        Some(e) => Ok(Some(store.put(e, scope)?)),
        None => Ok(None),
    }
}

fn assignments(
    alloc: Global,
    these: &[Assignment<&JaniExpr>],
    scope: &Inside,
    store: &mut ExprStore<JaniOp>,
) -> Result<Vec<Assignment<ExprId>>, AllocError>
    ensures { IfOk result (λ ps. IsPrepared (nodes store.old) (nodes store.new) (λ look. map (assigned_as look) ps.items) (λ at. map (assigned_as (see_from (places_in scope.now) at)) these.now)) }
{
    let mut all = Vec::with_capacity(alloc, these.len())?;
    for one in these {
        let value = store.put(one.value, scope)?;
        all.push(Assignment {
            place: one.place,
            value,
        })?;
    }
    Ok(all)
}

fn destination(
    alloc: Global,
    one: &Destination<&JaniExpr>,
    scope: &Inside,
    store: &mut ExprStore<JaniOp>,
) -> Result<Destination<ExprId>, AllocError>
    ensures { IfOk result (λ p. IsPrepared (nodes store.old) (nodes store.new) (λ look. destination_as look p) (λ at. destination_as (see_from (places_in scope.now) at) one.now)) }
{
    let weight = expression(one.weight, scope, store)?;
    let writes = assignments(alloc, one.writes.as_slice(), scope, store)?;
    let rewards = assignments(alloc, one.rewards.as_slice(), scope, store)?;
    Ok(Destination {
        location: one.location,
        weight,
        writes,
        rewards,
    })
}

fn destinations(
    alloc: Global,
    these: &[Destination<&JaniExpr>],
    scope: &Inside,
    store: &mut ExprStore<JaniOp>,
) -> Result<Vec<Destination<ExprId>>, AllocError>
    ensures { IfOk result (λ ps. IsPrepared (nodes store.old) (nodes store.new) (λ look. map (destination_as look) ps.items) (λ at. map (destination_as (see_from (places_in scope.now) at)) these.now)) }
{
    let mut all = Vec::with_capacity(alloc, these.len())?;
    for one in these {
        all.push(destination(alloc, one, scope, store)?)?;
    }
    Ok(all)
}

fn edge(
    alloc: Global,
    one: &Edge<&JaniExpr>,
    scope: &Inside,
    store: &mut ExprStore<JaniOp>,
) -> Result<Edge<ExprId>, AllocError>
    ensures { IfOk result (λ p. IsPrepared (nodes store.old) (nodes store.new) (λ look. edge_as look p) (λ at. edge_as (see_from (places_in scope.now) at) one.now)) }
{
    let guard = expression(one.guard, scope, store)?;
    let destinations = destinations(alloc, one.destinations.as_slice(), scope, store)?;
    Ok(Edge {
        guard,
        destinations,
    })
}

fn edges(
    alloc: Global,
    these: &[Edge<&JaniExpr>],
    scope: &Inside,
    store: &mut ExprStore<JaniOp>,
) -> Result<Vec<Edge<ExprId>>, AllocError>
    ensures { IfOk result (λ ps. IsPrepared (nodes store.old) (nodes store.new) (λ look. map (edge_as look) ps.items) (λ at. map (edge_as (see_from (places_in scope.now) at)) these.now)) }
{
    let mut all = Vec::with_capacity(alloc, these.len())?;
    for one in these {
        all.push(edge(alloc, one, scope, store)?)?;
    }
    Ok(all)
}

// ---- elements

/// The edges with an action.
fn acting(
    alloc: Global,
    these: &[Acting<&JaniExpr>],
    scope: &Inside,
    store: &mut ExprStore<JaniOp>,
) -> Result<Vec<Acting<ExprId>>, AllocError>
    ensures { IfOk result (λ ps. IsPrepared (nodes store.old) (nodes store.new) (λ look. map (acting_as look) ps.items) (λ at. map (acting_as (see_from (places_in scope.now) at)) these.now)) }
{
    let mut all = Vec::with_capacity(alloc, these.len())?;
    for one in these {
        let edge = edge(alloc, &one.edge, scope, store)?;
        all.push(Acting {
            action: one.action,
            edge,
        })?;
    }
    Ok(all)
}

fn located(
    alloc: Global,
    one: &Located<&JaniExpr>,
    scope: &Inside,
    store: &mut ExprStore<JaniOp>,
) -> Result<Located<ExprId>, AllocError>
    ensures { IfOk result (λ p. IsPrepared (nodes store.old) (nodes store.new) (λ look. located_as look p) (λ at. located_as (see_from (places_in scope.now) at) one.now)) }
{
    let silent = edges(alloc, one.silent.as_slice(), scope, store)?;
    let acting = acting(alloc, one.acting.as_slice(), scope, store)?;
    Ok(Located {
        silent,
        acting,
        actions: one.actions,
    })
}

fn locations(
    alloc: Global,
    these: &[Located<&JaniExpr>],
    scope: &Inside,
    store: &mut ExprStore<JaniOp>,
) -> Result<Vec<Located<ExprId>>, AllocError>
    ensures { IfOk result (λ ps. IsPrepared (nodes store.old) (nodes store.new) (λ look. map (located_as look) ps.items) (λ at. map (located_as (see_from (places_in scope.now) at)) these.now)) }
{
    let mut all = Vec::with_capacity(alloc, these.len())?;
    for one in these {
        all.push(located(alloc, one, scope, store)?)?;
    }
    Ok(all)
}

/// The elements.
pub(crate) fn elements<'a>(
    alloc: Global,
    these: &[NamedElement<'a>],
    places: &NameMap<'a, Place>,
    store: &mut ExprStore<JaniOp>,
) -> Result<Vec<Element>, AllocError>
    ensures { IfOk result (λ ps. IsPrepared (nodes store.old) (nodes store.new) (λ look. map (λ p. map (located_as look) p.locations.items) ps.items)
        (λ at. map (λ e. map (located_as (see_from (places_of e.own places.now) at)) e.locations.items) these.now)) }
{
    let mut all = Vec::with_capacity(alloc, these.len())?;
    for one in these {
        let scope = Inside {
            own: &one.own,
            places,
        };
        let locations = locations(alloc, one.locations.as_slice(), &scope, store)?;
        all.push(Element { locations })?;
    }
    Ok(all)
}

// ---- transient variables

/// Where names stand in the element of this number; where there is none, the global ones alone.
fn scope_at<'s, 'a>(
    elements: &'s [NamedElement<'a>],
    places: &'s NameMap<'a, Place>,
    i: usize,
) -> Inside<'s, 'a>
    ensures { places_in result ≡ places_at elements.entry.now places.entry.now i }
{
    match elements.get(i) {
        Some(element) => Inside {
            own: &element.own,
            places,
        },
        None => Inside {
            own: places,
            places,
        },
    }
}

fn giver<'a>(
    one: &Giver<&JaniExpr>,
    elements: &[NamedElement<'a>],
    places: &NameMap<'a, Place>,
    store: &mut ExprStore<JaniOp>,
) -> Result<Giver<ExprId>, AllocError>
    ensures { IfOk result (λ p. IsPrepared (nodes store.old) (nodes store.new) (λ look. giver_as (λ i. look) p) (λ at. giver_as (λ i. see_from (places_at elements.now places.now i) at) one.now)) }
{
    let scope = scope_at(elements, places, one.element);
    let value = store.put(one.value, &scope)?;
    Ok(Giver {
        element: one.element,
        location: one.location,
        value,
    })
}

fn givers<'a>(
    alloc: Global,
    these: &[Giver<&JaniExpr>],
    elements: &[NamedElement<'a>],
    places: &NameMap<'a, Place>,
    store: &mut ExprStore<JaniOp>,
) -> Result<Vec<Giver<ExprId>>, AllocError>
    ensures { IfOk result (λ ps. IsPrepared (nodes store.old) (nodes store.new) (λ look. map (giver_as (λ i. look)) ps.items) (λ at. map (giver_as (λ i. see_from (places_at elements.now places.now i) at)) these.now)) }
{
    let mut all = Vec::with_capacity(alloc, these.len())?;
    for one in these {
        all.push(giver(one, elements, places, store)?)?;
    }
    Ok(all)
}

fn transient<'a, 'e>(
    alloc: Global,
    one: &Transient<'a, &JaniExpr>,
    elements: &[NamedElement<'e>],
    places: &NameMap<'e, Place>,
    store: &mut ExprStore<JaniOp>,
) -> Result<Transient<'a, ExprId>, AllocError>
    ensures { IfOk result (λ p. IsPrepared (nodes store.old) (nodes store.new) (λ look. transient_as (λ i. look) p) (λ at. transient_as (λ i. see_from (places_at elements.now places.now i) at) one.now)) }
{
    let givers = givers(alloc, one.givers.as_slice(), elements, places, store)?;
    Ok(Transient {
        name: one.name,
        start: one.start,
        givers,
    })
}

/// The transient variables.
pub(crate) fn transients<'a, 'e>(
    alloc: Global,
    these: &[Transient<'a, &JaniExpr>],
    elements: &[NamedElement<'e>],
    places: &NameMap<'e, Place>,
    store: &mut ExprStore<JaniOp>,
) -> Result<Vec<Transient<'a, ExprId>>, AllocError>
    ensures { IfOk result (λ ps. IsPrepared (nodes store.old) (nodes store.new) (λ look. map (transient_as (λ i. look)) ps.items) (λ at. map (transient_as (λ i. see_from (places_at elements.now places.now i) at)) these.now)) }
{
    let mut all = Vec::with_capacity(alloc, these.len())?;
    for one in these {
        all.push(transient(alloc, one, elements, places, store)?)?;
    }
    Ok(all)
}
