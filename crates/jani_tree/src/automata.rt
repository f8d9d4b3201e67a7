// Copies of automata, whose lists and expressions are their own.
ghost use Rattle.std.specs.Prelude.{◌≡◌, IfOk, IsOkAnd, map};
ghost use Rattle.std.specs.Option.{option_map};
ghost use Rattle.bridge_io.specs.declared.reason.Named.{Named};
ghost use Rattle.op_trees.specs.Tree.{tree};
ghost use Rattle.jani_tree.specs.Syntax.{automaton_of, bounded, kind_of};

use crate::copy::copy_name;
use crate::syntax::{
    JaniAutomaton, JaniDestination, JaniEdge, JaniExpr, JaniKind, JaniLocation, JaniVar, JaniWrite,
};
use bridge_io::{List, Named, Text, together};
use op_trees::copy_expr;
use std::alloc::{AllocError, Global};

/// What has a copy that is seen alike.
trait Copied: Drop {
    ghost Tree: { Type 0 };

    ghost seen: { Self → Tree };

    /// The copy. `Err` is want of memory.
    fn copied(&self, alloc: Global) -> Result<Self, AllocError>
        ensures { IfOk result (λ copy. seen copy ≡ seen self.now) };
}

/// A copy of each item, in order.
fn copy_list<T: Copied>(alloc: Global, items: &[T]) -> Result<List<T>, AllocError>
    ensures { IfOk result (λ copies. map T.seen copies ≡ map T.seen items.now) }
{
    let mut copies = List::with_capacity(alloc, items.len())?;
    'items: for x in items {
        let copy = x.copied(alloc)?;
        copies.push(copy)?;
    }
    Ok(copies)
}

impl Copied for Named {
    ghost Tree = { Named };

    ghost seen = { λ n. n };

    fn copied(&self, alloc: Global) -> Result<Named, AllocError> {
        copy_name(alloc, self)
    }
}

/// The same names.
fn copy_names(alloc: Global, names: &[Named]) -> Result<List<Named>, AllocError>
    ensures { IfOk result (λ copies. copies ≡ names.now) }
{
    let copies = copy_list(alloc, names)?;
    Ok(copies)
}

/// The same name, if there is one.
fn some_name(alloc: Global, name: &Option<Named>) -> Result<Option<Named>, AllocError>
    ensures { IfOk result (λ copy. copy ≡ name.now) }
{
    match name {
        Some(n) => Ok(Some(copy_name(alloc, n)?)),
        None => Ok(None),
    }
}

/// The same comment, if there is one.
fn some_note(alloc: Global, note: &Option<Text>) -> Result<Option<Text>, AllocError>
    ensures { IfOk result (λ copy. copy ≡ note.now) }
{
    match note {
        Some(note) => Ok(Some(Text::copy_of(alloc, note.as_str())?)),
        None => Ok(None),
    }
}

/// The same expression, if there is one.
fn some_expression(alloc: Global, e: &Option<JaniExpr>) -> Result<Option<JaniExpr>, AllocError>
    ensures { IfOk result (λ copy. option_map tree copy ≡ option_map tree e.now) }
{
    match e {
        Some(e) => Ok(Some(copy_expr(alloc, e)?)),
        None => Ok(None),
    }
}

// ---- variables

/// Two bounds, of which copies were made.
fn bounds(
    low: Result<JaniExpr, AllocError>,
    high: Result<JaniExpr, AllocError>,
) -> Result<JaniKind, AllocError>
    ensures { IfOk result (λ copy. IsOkAnd low (λ l. IsOkAnd high (λ h. kind_of copy ≡ bounded (tree l) (tree h)))) }
{
    let (low, high) = together(low, high)?;
    Ok(JaniKind::Bounded(low, high))
}

fn copy_kind(alloc: Global, kind: &JaniKind) -> Result<JaniKind, AllocError>
    ensures { IfOk result (λ copy. kind_of copy ≡ kind_of kind.now) }
{
    match kind {
        JaniKind::Bool => Ok(JaniKind::Bool),
        JaniKind::Int => Ok(JaniKind::Int),
        JaniKind::Real => Ok(JaniKind::Real),
        JaniKind::RealBounded => Ok(JaniKind::RealBounded),
        JaniKind::OneSided => Ok(JaniKind::OneSided),
        JaniKind::Bounded(low, high) => bounds(copy_expr(alloc, low), copy_expr(alloc, high)),
    }
}

impl Copied for JaniVar {
    ghost use Rattle.jani_tree.specs.Syntax.{Var, var_of};

    ghost Tree = { Var };

    ghost seen = { var_of };

    fn copied(&self, alloc: Global) -> Result<JaniVar, AllocError> {
        let names = together(copy_name(alloc, &self.name), some_note(alloc, &self.note));
        let values = together(
            copy_kind(alloc, &self.kind),
            some_expression(alloc, &self.start),
        );
        let ((name, note), (kind, start)) = together(names, values)?;
        Ok(JaniVar {
            name,
            kind,
            kind_at: self.kind_at,
            transient: self.transient,
            start,
            note,
        })
    }
}

// ---- locations and edges

impl Copied for JaniWrite {
    ghost use Rattle.jani_tree.specs.Syntax.{Write, write_of};

    ghost Tree = { Write };

    ghost seen = { write_of };

    fn copied(&self, alloc: Global) -> Result<JaniWrite, AllocError> {
        let value = copy_expr(alloc, &self.value);
        let (target, value) = together(copy_name(alloc, &self.target), value)?;
        Ok(JaniWrite { target, value })
    }
}

impl Copied for JaniLocation {
    ghost use Rattle.jani_tree.specs.Syntax.{Location, location_of};

    ghost Tree = { Location };

    ghost seen = { location_of };

    fn copied(&self, alloc: Global) -> Result<JaniLocation, AllocError> {
        let values = copy_list(alloc, self.values.as_slice());
        let (name, values) = together(copy_name(alloc, &self.name), values)?;
        Ok(JaniLocation { name, values })
    }
}

impl Copied for JaniDestination {
    ghost use Rattle.jani_tree.specs.Syntax.{Destination, destination_of};

    ghost Tree = { Destination };

    ghost seen = { destination_of };

    fn copied(&self, alloc: Global) -> Result<JaniDestination, AllocError> {
        let writes = copy_list(alloc, self.writes.as_slice());
        let values = together(some_expression(alloc, &self.weight), writes);
        let (location, (weight, writes)) = together(copy_name(alloc, &self.location), values)?;
        Ok(JaniDestination {
            location,
            weight,
            writes,
        })
    }
}

impl Copied for JaniEdge {
    ghost use Rattle.jani_tree.specs.Syntax.{Edge, edge_of};

    ghost Tree = { Edge };

    ghost seen = { edge_of };

    fn copied(&self, alloc: Global) -> Result<JaniEdge, AllocError> {
        let destinations = copy_list(alloc, self.destinations.as_slice());
        let values = together(some_expression(alloc, &self.guard), destinations);
        let names = together(
            copy_name(alloc, &self.location),
            some_name(alloc, &self.action),
        );
        let ((location, action), (guard, destinations)) = together(names, values)?;
        Ok(JaniEdge {
            location,
            action,
            guard,
            destinations,
            at: self.at,
        })
    }
}

/// The same automaton, offsets too. `Err` is want of memory.
pub fn copy_automaton(alloc: Global, a: &JaniAutomaton) -> Result<JaniAutomaton, AllocError>
    ensures { IfOk result (λ copy. automaton_of copy ≡ automaton_of a.now) }
{
    let locations = copy_list(alloc, a.locations.as_slice());
    let states = together(copy_list(alloc, a.variables.as_slice()), locations);
    let steps = together(states, copy_list(alloc, a.edges.as_slice()));
    let initial = copy_names(alloc, a.initial.as_slice());
    let names = together(copy_name(alloc, &a.name), initial);
    let ((name, initial), ((variables, locations), edges)) = together(names, steps)?;
    Ok(JaniAutomaton {
        name,
        variables,
        locations,
        initial,
        edges,
    })
}
