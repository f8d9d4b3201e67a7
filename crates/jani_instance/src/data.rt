//! What an instance keeps, and what its edges come out as at a state.

use bridge_io::{List, Text};
use expr_store::ExprId;
use frac_core::Frac;
use gathering::NumberLists;
use instance_start::Place;
use jani_tree::JaniExpr;
use name_rules::NameMap;
use op_trees::{EvalFail, Value};
use state_choices::Command;

// ---- of what an instance keeps, the expressions are lent from the file at first, and stand in its store in the end

/// An assignment of a destination: the number of a column or of a reward structure, and the value.
#[derive(Drop)]
pub struct Assignment<E> {
    pub place: usize,
    pub value: E,
}

/// A destination of an edge: the value of its location's column, its probability, and what it assigns.
#[derive(Drop)]
pub struct Destination<E> {
    pub location: Result<Value, EvalFail>,
    pub weight: Option<E>,
    pub writes: Vec<Assignment<E>>,
    pub rewards: Vec<Assignment<E>>,
}

/// An edge: which location it starts at, and its action, follow from where it stands.
#[derive(Drop)]
pub struct Edge<E> {
    pub guard: Option<E>,
    pub destinations: Vec<Destination<E>>,
}

/// An edge with an action: the number of the action among those of the element, and the edge.
#[derive(Drop)]
pub struct Acting<E> {
    pub action: usize,
    pub edge: Edge<E>,
}

/// The edges that start at a location: the silent ones, and those with an action; and how many actions the element has.
#[derive(Drop)]
pub struct Located<E> {
    pub silent: Vec<Edge<E>>,
    pub acting: Vec<Acting<E>>,
    pub actions: usize,
}

/// An element: its locations.
#[derive(Drop)]
pub struct Element {
    pub locations: Vec<Located<ExprId>>,
}

/// An element before its names are resolved: where its own ones stand, and its locations.
#[derive(Drop)]
pub struct NamedElement<'a> {
    pub own: NameMap<'a, Place>,
    pub locations: Vec<Located<&'a JaniExpr>>,
}

/// An element that takes part in a vector, and the number of the action that it does so with.
#[derive(Clone, Copy)]
pub struct Link {
    pub element: usize,
    pub part: usize,
}

/// A synchronisation vector: its result, and the elements that take part.
#[derive(Drop)]
pub struct Vector<'a> {
    pub label: Option<&'a Text>,
    pub links: Vec<Link>,
}

/// Whether an element that has several initial locations may begin in that of each number; past the end it may not. The table is empty
/// for an element that has a single one.
#[derive(Drop)]
pub struct InitialLocations {
    pub table: Vec<bool>,
}

/// A value that a location of an element gives to a transient variable.
#[derive(Clone, Copy)]
pub struct Giver<E> {
    pub element: usize,
    pub location: usize,
    pub value: E,
}

/// A transient variable: its name, its first value, and the locations that give another.
#[derive(Drop)]
pub struct Transient<'a, E> {
    pub name: &'a Text,
    pub start: Result<Value, EvalFail>,
    pub givers: Vec<Giver<E>>,
}

/// What the edges of an element at its current location come out as: the silent ones, and those with each action; and how many
/// actions the element has.
#[derive(Drop)]
pub struct Evaluated {
    pub silent: List<Command>,
    pub acting: NumberLists<Command>,
    pub actions: usize,
}

/// What the edges of all elements come out as in a state, and what a choice earns by itself in each reward structure.
#[derive(Drop)]
pub struct EvaluatedElements {
    pub members: Vec<Evaluated>,
    pub rewards: List<Result<Frac, EvalFail>>,
}
