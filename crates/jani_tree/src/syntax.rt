// The abstract syntax of a JANI file (jani-model specification, version 1). Each name and each node of an expression has the
// byte offset of its JSON value.
//
// How a value of each type is let go is written out, so that it is proved here, and not in each crate that holds one.

use bridge_io::{List, Named, Text};
use decimal_json::Json;
use jani_table::JaniOp;
use op_trees::{Expr, Ty};

/// An expression.
pub type JaniExpr = Expr<JaniOp>;

/// A file: a model of type "mdp". The lists are in the order of the file. The properties are kept as they are.
pub struct JaniFile {
    pub actions: List<Named>,
    pub constants: List<JaniConst>,
    pub variables: List<JaniVar>,
    /// The condition on the initial states, if there is one; it is not the literal true where a file was read.
    pub restrict: Option<JaniExpr>,
    pub automata: List<JaniAutomaton>,
    /// The automata that take part, in the order of the composition.
    pub elements: List<JaniElement>,
    /// The offset of the list of elements.
    pub elements_at: usize,
    pub vectors: List<JaniVector>,
    pub properties: Json,
}

impl Drop for JaniFile {
    fn drop(self) {
        let JaniFile {
            actions,
            constants,
            variables,
            restrict,
            automata,
            elements,
            elements_at: _,
            vectors,
            properties,
        } = self;
        drop(actions);
        drop(constants);
        drop(variables);
        drop(restrict);
        drop(automata);
        drop(elements);
        drop(vectors);
        drop(properties);
    }
}

/// A constant, with its value if the file gives one, and a comment.
pub struct JaniConst {
    pub name: Named,
    pub ty: Ty,
    pub value: Option<JaniExpr>,
    pub note: Option<Text>,
}

impl Drop for JaniConst {
    fn drop(self) {
        let JaniConst {
            name,
            ty: _,
            value,
            note,
        } = self;
        drop(name);
        drop(value);
        drop(note);
    }
}

/// A variable, with its initial value if the file gives one, and a comment.
pub struct JaniVar {
    pub name: Named,
    pub kind: JaniKind,
    /// The offset of the type.
    pub kind_at: usize,
    pub transient: bool,
    pub start: Option<JaniExpr>,
    pub note: Option<Text>,
}

impl Drop for JaniVar {
    fn drop(self) {
        let JaniVar {
            name,
            kind,
            kind_at: _,
            transient: _,
            start,
            note,
        } = self;
        drop(name);
        drop(kind);
        drop(start);
        drop(note);
    }
}

/// The type of a variable. Bounds are kept where it is an int with both.
pub enum JaniKind {
    Bool,
    Int,
    Real,
    /// A real with a bound or two.
    RealBounded,
    /// An int with one bound.
    OneSided,
    /// An int from the first bound to the second.
    Bounded(JaniExpr, JaniExpr),
}

impl Drop for JaniKind {
    fn drop(self) {
        match self {
            JaniKind::Bounded(low, high) => drop((low, high)),
            JaniKind::Bool => (),
            JaniKind::Int => (),
            JaniKind::Real => (),
            JaniKind::RealBounded => (),
            JaniKind::OneSided => (),
        }
    }
}

/// An automaton. It begins in one of the locations of the list `initial`.
pub struct JaniAutomaton {
    pub name: Named,
    pub variables: List<JaniVar>,
    pub locations: List<JaniLocation>,
    pub initial: List<Named>,
    pub edges: List<JaniEdge>,
}

impl Drop for JaniAutomaton {
    fn drop(self) {
        let JaniAutomaton {
            name,
            variables,
            locations,
            initial,
            edges,
        } = self;
        drop(name);
        drop(variables);
        drop(locations);
        drop(initial);
        drop(edges);
    }
}

/// A location, with the values of transient variables in it.
pub struct JaniLocation {
    pub name: Named,
    pub values: List<JaniWrite>,
}

impl Drop for JaniLocation {
    fn drop(self) {
        let JaniLocation { name, values } = self;
        drop(name);
        drop(values);
    }
}

/// A value for a variable.
pub struct JaniWrite {
    pub target: Named,
    pub value: JaniExpr,
}

impl Drop for JaniWrite {
    fn drop(self) {
        let JaniWrite { target, value } = self;
        drop(target);
        drop(value);
    }
}

/// An edge from a location; without an action it is silent.
pub struct JaniEdge {
    pub location: Named,
    pub action: Option<Named>,
    pub guard: Option<JaniExpr>,
    pub destinations: List<JaniDestination>,
    /// The offset of the list of destinations.
    pub at: usize,
}

impl Drop for JaniEdge {
    fn drop(self) {
        let JaniEdge {
            location,
            action,
            guard,
            destinations,
            at: _,
        } = self;
        drop(location);
        drop(action);
        drop(guard);
        drop(destinations);
    }
}

/// A destination of an edge, with its probability if the file gives one.
pub struct JaniDestination {
    pub location: Named,
    pub weight: Option<JaniExpr>,
    pub writes: List<JaniWrite>,
}

impl Drop for JaniDestination {
    fn drop(self) {
        let JaniDestination {
            location,
            weight,
            writes,
        } = self;
        drop(location);
        drop(weight);
        drop(writes);
    }
}

/// An automaton as a part of the composition, and the actions that it accepts in each of its locations ("input-enable").
pub struct JaniElement {
    pub name: Named,
    pub enable: List<Named>,
}

impl Drop for JaniElement {
    fn drop(self) {
        let JaniElement { name, enable } = self;
        drop(name);
        drop(enable);
    }
}

/// A synchronisation vector: for each element the action it takes part with, if it does; and the action that results, if any.
pub struct JaniVector {
    pub parts: List<Option<Named>>,
    pub result: Option<Named>,
    /// The offset of the list of parts.
    pub at: usize,
}

impl Drop for JaniVector {
    fn drop(self) {
        let JaniVector {
            parts,
            result,
            at: _,
        } = self;
        drop(parts);
        drop(result);
    }
}
