// The trees of the objects of a file, each built of a value without faults.
ghost use Rattle.std.specs.Prelude.{◌≡◌, [], Some, IfOk, IsSomeAnd, IsTrue, map, if◌then◌else◌};
ghost use Rattle.std.specs.Option.{option_map};
ghost use Rattle.op_trees.specs.Tree.{tree};
ghost use Rattle.op_trees.specs.declared.tree.Ty.TheVariants as T;
ghost use Rattle.jani_table.specs.declared.table.Form.TheVariants as F;
ghost use Rattle.jani_table.specs.declared.table.Kind.TheVariants as O;
ghost use Rattle.jani_table.specs.declared.key.Key.TheVariants as K;
ghost use Rattle.jani_table.specs.Node.{node};
ghost use Rattle.jani_table.specs.Table.{item_form};
ghost use Rattle.jani_table.specs.Faults.{faults, is_known, is_needed, is_true, object_faults, part, part_form};
ghost use Rattle.jani_table.specs.Parts.{is_plain};
ghost use Rattle.jani_table.specs.Parts as Parts;
ghost use Rattle.jani_tree.specs.Syntax.{Automaton, Const, Destination, Edge, Element, Location, Var, Vector, automaton_of, const_of, destination_of, edge_of, element_of, file_of, kind_of, location_of, var_of, vector_of, write_of};
ghost use Rattle.jani_tree.specs.Jani.{IsAutomaton, IsConst, IsDestination, IsEdge, IsElement, IsExpr, IsFile, IsItems, IsKept, IsKeyed, IsKind, IsKindAt, IsList, IsListAt, IsLocation, IsNamed, IsPart, IsRange, IsSystem, IsText, IsVar, IsVector, IsWrite, IsBoxed, Optional, range_in, range_of, ty_in, unless_always};

use crate::build::{
    Build, expression, expression_of, items, list, name_of, names_of, note_of, optional_boxed,
    optional_expression, optional_name, parts_of,
};
use crate::copy::copy_json;
use crate::syntax::{
    JaniAutomaton, JaniConst, JaniDestination, JaniEdge, JaniElement, JaniExpr, JaniFile, JaniKind,
    JaniLocation, JaniVar, JaniVector, JaniWrite,
};
use bridge_io::{List, Named, Text, together};
use decimal_json::Json;
use jani_table::{
    Form, Key, Kind, items_of, offset, optional_of, optional_part, part, required_of,
    required_part, text_of, ty_of,
};
use op_trees::Ty;
use std::alloc::{AllocError, Global};

// ---- constants and variables

#[tactic(auto, using(crate::proofs::Types::constant_known))]
fn constant_type(value: &Json) -> Ty
    requires { faults F.ConstantType (node value.now) ≡ [] }
    ensures { ty_in (Some (node value.now)) ≡ Some result }
{
    match value {
        Json::Str(_, s) => match ty_of(s.as_str()) {
            Some(ty) => ty,
            None => unreachable!(),
        },
        Json::Null(_) => unreachable!(),
        Json::Truth(_, _) => unreachable!(),
        Json::Number(_, _) => unreachable!(),
        Json::Array(_, _) => unreachable!(),
        Json::Object(_, _, _) => unreachable!(),
    }
}

/// The name and the comment of a declaration.
#[derive(Drop)]
struct Heading {
    name: Named,
    note: Option<Text>,
}

fn heading_of(alloc: Global, form: Form, value: &Json) -> Result<Heading, AllocError>
    requires plain { IsTrue (is_plain form) }
    requires name_known { IsTrue (is_known (Parts.kind_of form) K.Name) }
    requires name_needed { IsTrue (is_needed (Parts.kind_of form) K.Name) }
    requires name_form { part_form (Parts.kind_of form) K.Name ≡ F.Name }
    requires note_known { IsTrue (is_known (Parts.kind_of form) K.Comment) }
    requires note_form { part_form (Parts.kind_of form) K.Comment ≡ F.Text }
    requires clean { faults form (node value.now) ≡ [] }
    ensures name { IfOk result (λ h. IsKeyed K.Name (node value.now) h.name) }
    ensures note { IfOk result (λ h. Optional IsText (part K.Comment (node value.now)) h.note) }
{
    let name = name_of(alloc, form, Key::Name, value);
    let (name, note) = together(name, note_of(alloc, form, value))?;
    Ok(Heading { name, note })
}

impl Build for JaniConst {
    ghost Tree = { Const };

    ghost seen = { const_of };

    ghost form = { F.Constant };

    ghost is = { IsConst };

    fn build(alloc: Global, value: &Json) -> Result<JaniConst, AllocError> {
        let ty = constant_type(required_part(Form::Constant, Key::Type, value));
        let tree = optional_expression(alloc, Form::Constant, Key::Value, value);
        let (tree, heading) = together(tree, heading_of(alloc, Form::Constant, value))?;
        Ok(JaniConst {
            name: heading.name,
            ty,
            value: tree,
            note: heading.note,
        })
    }
}

/// The type of an int with a bound or two.
#[tactic(auto, using(crate::proofs::Types::whole, crate::proofs::Types::no_low, crate::proofs::Types::no_high))]
fn int_range(alloc: Global, value: &Json) -> Result<JaniKind, AllocError>
    requires { object_faults O.Range (node value.now) ≡ [] }
    ensures { IfOk result (λ k. IsRange (range_of (Some T.Int) (part K.LowerBound (node value.now)) (part K.UpperBound (node value.now))) (kind_of k)) }
{
    match optional_of(Kind::Range, Key::LowerBound, value) {
        Some(low) => match optional_of(Kind::Range, Key::UpperBound, value) {
            Some(high) => {
                let bounds = together(expression(alloc, low), expression(alloc, high));
                let (first, last) = bounds?;
                Ok(JaniKind::Bounded(first, last))
            }
            None => Ok(JaniKind::OneSided),
        },
        None => Ok(JaniKind::OneSided),
    }
}

/// Whether a bounded type stands on real.
#[tactic(auto, using(crate::proofs::Types::base_known, crate::proofs::Types::base_bool))]
fn is_real(value: &Json) -> bool
    requires { object_faults O.Range (node value.now) ≡ [] }
    ensures { ty_in (part K.Base (node value.now)) ≡ Some (if result then T.Real else T.Int) }
{
    let (_, s) = text_of(Form::BaseWord, required_of(Kind::Range, Key::Base, value));
    match ty_of(s) {
        Some(Ty::Real) => true,
        Some(Ty::Int) => false,
        Some(Ty::Bool) => unreachable!(),
        None => unreachable!(),
    }
}

fn range(alloc: Global, value: &Json) -> Result<JaniKind, AllocError>
    requires { object_faults O.Range (node value.now) ≡ [] }
    ensures { IfOk result (λ k. IsRange (range_in (node value.now)) (kind_of k)) }
{
    if is_real(value) {
        return Ok(JaniKind::RealBounded);
    }
    int_range(alloc, value)
}

#[tactic(auto, using(crate::proofs::Types::variable_known))]
fn kind(alloc: Global, value: &Json) -> Result<JaniKind, AllocError>
    requires { faults F.VariableType (node value.now) ≡ [] }
    ensures { IfOk result (λ k. IsKind (node value.now) (kind_of k)) }
{
    match value {
        Json::Str(_, s) => match ty_of(s.as_str()) {
            Some(Ty::Bool) => Ok(JaniKind::Bool),
            Some(Ty::Int) => Ok(JaniKind::Int),
            Some(Ty::Real) => Ok(JaniKind::Real),
            None => unreachable!(),
        },
        Json::Object(_, _, _) => range(alloc, value),
        Json::Null(_) => unreachable!(),
        Json::Truth(_, _) => unreachable!(),
        Json::Number(_, _) => unreachable!(),
        Json::Array(_, _) => unreachable!(),
    }
}

/// Whether a member is the literal true.
fn flag(key: Key, value: &Json) -> bool
    ensures { result ≡ is_true (part key (node value.now)) }
{
    match part(key, value) {
        Some(Json::Truth(_, b)) => *b,
        _ => false,
    }
}

/// The type of a variable, its offset, and the initial value.
#[derive(Drop)]
struct Typed {
    kind: JaniKind,
    at: usize,
    start: Option<JaniExpr>,
}

fn typed_start(alloc: Global, value: &Json) -> Result<Typed, AllocError>
    requires { faults F.Variable (node value.now) ≡ [] }
    ensures kind { IfOk result (λ t. IsSomeAnd (part K.Type (node value.now)) (λ w. IsKindAt w (kind_of t.kind) t.at)) }
    ensures start { IfOk result (λ t. Optional IsExpr (part K.InitialValue (node value.now)) (option_map tree t.start)) }
{
    let at = required_part(Form::Variable, Key::Type, value);
    let start = optional_expression(alloc, Form::Variable, Key::InitialValue, value);
    let (start, kind) = together(start, kind(alloc, at))?;
    Ok(Typed {
        kind,
        at: offset(at),
        start,
    })
}

impl Build for JaniVar {
    ghost Tree = { Var };

    ghost seen = { var_of };

    ghost form = { F.Variable };

    ghost is = { IsVar };

    fn build(alloc: Global, value: &Json) -> Result<JaniVar, AllocError> {
        let heading = heading_of(alloc, Form::Variable, value);
        let (heading, typed) = together(heading, typed_start(alloc, value))?;
        Ok(JaniVar {
            name: heading.name,
            kind: typed.kind,
            kind_at: typed.at,
            transient: flag(Key::Transient, value),
            start: typed.start,
            note: heading.note,
        })
    }
}

// ---- automata

/// An assignment or a transient value, which have the same members.
fn write(alloc: Global, item: Form, value: &Json) -> Result<JaniWrite, AllocError>
    requires plain { IsTrue (is_plain item) }
    requires ref_known { IsTrue (is_known (Parts.kind_of item) K.Ref) }
    requires ref_needed { IsTrue (is_needed (Parts.kind_of item) K.Ref) }
    requires ref_form { part_form (Parts.kind_of item) K.Ref ≡ F.Name }
    requires value_known { IsTrue (is_known (Parts.kind_of item) K.Value) }
    requires value_needed { IsTrue (is_needed (Parts.kind_of item) K.Value) }
    requires value_form { part_form (Parts.kind_of item) K.Value ≡ F.Expression }
    requires clean { faults item (node value.now) ≡ [] }
    ensures { IfOk result (λ w. IsWrite (node value.now) (write_of w)) }
{
    let target = name_of(alloc, item, Key::Ref, value);
    let (target, tree) = together(target, expression_of(alloc, item, Key::Value, value))?;
    Ok(JaniWrite {
        target,
        value: tree,
    })
}

/// The assignments or transient values of a list.
fn writes(
    alloc: Global,
    form: Form,
    item: Form,
    value: &Json,
) -> Result<List<JaniWrite>, AllocError>
    requires form { item_form form ≡ Some item }
    requires plain { IsTrue (is_plain item) }
    requires ref_known { IsTrue (is_known (Parts.kind_of item) K.Ref) }
    requires ref_needed { IsTrue (is_needed (Parts.kind_of item) K.Ref) }
    requires ref_form { part_form (Parts.kind_of item) K.Ref ≡ F.Name }
    requires value_known { IsTrue (is_known (Parts.kind_of item) K.Value) }
    requires value_needed { IsTrue (is_needed (Parts.kind_of item) K.Value) }
    requires value_form { part_form (Parts.kind_of item) K.Value ≡ F.Expression }
    requires clean { faults form (node value.now) ≡ [] }
    ensures { IfOk result (λ ws. IsItems IsWrite (node value.now) (map write_of ws)) }
{
    let values = items_of(form, value);
    let mut trees = List::with_capacity(alloc, values.len())?;
    'items: for x in values {
        let tree = write(alloc, item, x)?;
        trees.push(tree)?;
    }
    Ok(trees)
}

fn transient_values(alloc: Global, value: &Json) -> Result<List<JaniWrite>, AllocError>
    requires { faults F.Location (node value.now) ≡ [] }
    ensures { IfOk result (λ ws. IsList IsWrite (part K.TransientValues (node value.now)) (map write_of ws)) }
{
    match optional_part(Form::Location, Key::TransientValues, value) {
        Some(w) => writes(alloc, Form::TransientValues, Form::TransientValue, w),
        None => Ok(List::new(alloc)),
    }
}

fn assignments(alloc: Global, value: &Json) -> Result<List<JaniWrite>, AllocError>
    requires { faults F.Destination (node value.now) ≡ [] }
    ensures { IfOk result (λ ws. IsList IsWrite (part K.Assignments (node value.now)) (map write_of ws)) }
{
    match optional_part(Form::Destination, Key::Assignments, value) {
        Some(w) => writes(alloc, Form::Assignments, Form::Assignment, w),
        None => Ok(List::new(alloc)),
    }
}

impl Build for JaniLocation {
    ghost Tree = { Location };

    ghost seen = { location_of };

    ghost form = { F.Location };

    ghost is = { IsLocation };

    fn build(alloc: Global, value: &Json) -> Result<JaniLocation, AllocError> {
        let name = name_of(alloc, Form::Location, Key::Name, value);
        let (name, values) = together(name, transient_values(alloc, value))?;
        Ok(JaniLocation { name, values })
    }
}

impl Build for JaniDestination {
    ghost Tree = { Destination };

    ghost seen = { destination_of };

    ghost form = { F.Destination };

    ghost is = { IsDestination };

    fn build(alloc: Global, value: &Json) -> Result<JaniDestination, AllocError> {
        let location = name_of(alloc, Form::Destination, Key::Location, value);
        let weight = optional_boxed(alloc, Form::Destination, Key::Probability, value);
        let place = together(location, weight);
        let (writes, (location, weight)) = together(assignments(alloc, value), place)?;
        Ok(JaniDestination {
            location,
            weight,
            writes,
        })
    }
}

/// The destinations of an edge, and the offset of their list.
#[derive(Drop)]
struct DestinationList {
    list: List<JaniDestination>,
    at: usize,
}

#[tactic(auto, using(crate::proofs::Lists::list_at))]
fn destinations(alloc: Global, value: &Json) -> Result<DestinationList, AllocError>
    requires { faults F.Edge (node value.now) ≡ [] }
    ensures { IfOk result (λ d. IsSomeAnd (part K.Destinations (node value.now)) (λ w. IsListAt IsDestination w (map destination_of d.list) d.at)) }
{
    let w = required_part(Form::Edge, Key::Destinations, value);
    let list = items(alloc, Form::Destinations, w)?;
    Ok(DestinationList {
        list,
        at: offset(w),
    })
}

impl Build for JaniEdge {
    ghost Tree = { Edge };

    ghost seen = { edge_of };

    ghost form = { F.Edge };

    ghost is = { IsEdge };

    fn build(alloc: Global, value: &Json) -> Result<JaniEdge, AllocError> {
        let location = name_of(alloc, Form::Edge, Key::Location, value);
        let start = together(destinations(alloc, value), location);
        let action = optional_name(alloc, Form::Edge, Key::Action, value);
        let guard = optional_boxed(alloc, Form::Edge, Key::Guard, value);
        let ((destinations, location), (action, guard)) = together(start, together(action, guard))?;
        Ok(JaniEdge {
            location,
            action,
            guard,
            destinations: destinations.list,
            at: destinations.at,
        })
    }
}

#[tactic(auto, using(crate::proofs::Lists::list_same))]
fn initial_locations(alloc: Global, value: &Json) -> Result<List<Named>, AllocError>
    requires { faults F.Automaton (node value.now) ≡ [] }
    ensures { IfOk result (λ xs. IsList IsNamed (part K.InitialLocations (node value.now)) xs) }
{
    list(
        alloc,
        Form::Automaton,
        Form::InitialLocations,
        Key::InitialLocations,
        value,
    )
}

impl Build for JaniAutomaton {
    ghost Tree = { Automaton };

    ghost seen = { automaton_of };

    ghost form = { F.Automaton };

    ghost is = { IsAutomaton };

    fn build(alloc: Global, value: &Json) -> Result<JaniAutomaton, AllocError> {
        let variables = list(
            alloc,
            Form::Automaton,
            Form::Variables,
            Key::Variables,
            value,
        );
        let locations = list(
            alloc,
            Form::Automaton,
            Form::Locations,
            Key::Locations,
            value,
        );
        let initial = initial_locations(alloc, value);
        let edges = list(alloc, Form::Automaton, Form::Edges, Key::Edges, value);
        let name = name_of(alloc, Form::Automaton, Key::Name, value);
        let states = together(variables, locations);
        let moves = together(initial, edges);
        let ((variables, locations), ((initial, edges), name)) = together(
            states,
            together(moves, name),
        )?;
        Ok(JaniAutomaton {
            name,
            variables,
            locations,
            initial,
            edges,
        })
    }
}

// ---- the composition

/// The parts of a vector, and the offset of their list.
#[derive(Drop)]
struct VectorParts {
    list: List<Option<Named>>,
    at: usize,
}

#[tactic(auto, using(crate::proofs::Lists::list_at))]
fn vector_parts(alloc: Global, value: &Json) -> Result<VectorParts, AllocError>
    requires { faults F.Vector (node value.now) ≡ [] }
    ensures { IfOk result (λ d. IsSomeAnd (part K.Synchronise (node value.now)) (λ w. IsListAt IsPart w d.list d.at)) }
{
    let w = required_part(Form::Vector, Key::Synchronise, value);
    let list = parts_of(alloc, w)?;
    Ok(VectorParts {
        list,
        at: offset(w),
    })
}

impl Build for JaniVector {
    ghost Tree = { Vector };

    ghost seen = { vector_of };

    ghost form = { F.Vector };

    ghost is = { IsVector };

    fn build(alloc: Global, value: &Json) -> Result<JaniVector, AllocError> {
        let result = optional_name(alloc, Form::Vector, Key::Result, value);
        let (parts, result) = together(vector_parts(alloc, value), result)?;
        Ok(JaniVector {
            parts: parts.list,
            result,
            at: parts.at,
        })
    }
}

/// The actions that an element accepts in each of its locations.
#[tactic(auto, using(crate::proofs::Lists::list_same))]
fn enabled(alloc: Global, value: &Json) -> Result<List<Named>, AllocError>
    requires { faults F.Element (node value.now) ≡ [] }
    ensures { IfOk result (λ xs. IsList IsNamed (part K.InputEnable (node value.now)) xs) }
{
    list(
        alloc,
        Form::Element,
        Form::InputEnable,
        Key::InputEnable,
        value,
    )
}

impl Build for JaniElement {
    ghost Tree = { Element };

    ghost seen = { element_of };

    ghost form = { F.Element };

    ghost is = { IsElement };

    fn build(alloc: Global, value: &Json) -> Result<JaniElement, AllocError> {
        let name = name_of(alloc, Form::Element, Key::Automaton, value);
        let (name, enable) = together(name, enabled(alloc, value))?;
        Ok(JaniElement { name, enable })
    }
}

/// The elements of the composition, and the offset of their list.
#[derive(Drop)]
struct ElementList {
    list: List<JaniElement>,
    at: usize,
}

#[tactic(auto, using(crate::proofs::Lists::list_at))]
fn elements(alloc: Global, value: &Json) -> Result<ElementList, AllocError>
    requires { faults F.System (node value.now) ≡ [] }
    ensures { IfOk result (λ d. IsSomeAnd (part K.Elements (node value.now)) (λ w. IsListAt IsElement w (map element_of d.list) d.at)) }
{
    let w = required_part(Form::System, Key::Elements, value);
    let list = items(alloc, Form::Elements, w)?;
    Ok(ElementList {
        list,
        at: offset(w),
    })
}

/// The composition of the automata.
#[derive(Drop)]
struct Composition {
    elements: ElementList,
    vectors: List<JaniVector>,
}

fn system(alloc: Global, value: &Json) -> Result<Composition, AllocError>
    requires { faults F.System (node value.now) ≡ [] }
    ensures { IfOk result (λ s. IsSystem (node value.now) (map element_of s.elements.list) s.elements.at (map vector_of s.vectors)) }
{
    let vectors = list(alloc, Form::System, Form::Vectors, Key::Syncs, value);
    let (elements, vectors) = together(elements(alloc, value), vectors)?;
    Ok(Composition { elements, vectors })
}

fn system_of(alloc: Global, value: &Json) -> Result<Composition, AllocError>
    requires { faults F.Model (node value.now) ≡ [] }
    ensures { IfOk result (λ s. IsSomeAnd (part K.System (node value.now)) (λ w. IsSystem w (map element_of s.elements.list) s.elements.at (map vector_of s.vectors))) }
{
    system(alloc, required_part(Form::Model, Key::System, value))
}

// ---- the file

fn actions(alloc: Global, value: &Json) -> Result<List<Named>, AllocError>
    requires { faults F.Model (node value.now) ≡ [] }
    ensures { IfOk result (λ xs. IsList (IsKeyed K.Name) (part K.Actions (node value.now)) xs) }
{
    match optional_part(Form::Model, Key::Actions, value) {
        Some(w) => names_of(alloc, Form::Actions, Form::Action, Key::Name, w),
        None => Ok(List::new(alloc)),
    }
}

/// The condition on the initial states, unless it is the literal true.
fn restriction(alloc: Global, value: &Json) -> Result<Option<JaniExpr>, AllocError>
    requires { faults F.Model (node value.now) ≡ [] }
    ensures { IfOk result (λ e. Optional IsBoxed (unless_always (part K.RestrictInitial (node value.now))) (option_map tree e)) }
{
    match optional_part(Form::Model, Key::RestrictInitial, value) {
        Some(w) => {
            if flag(Key::Exp, w) {
                return Ok(None);
            }
            Ok(Some(expression_of(alloc, Form::Boxed, Key::Exp, w)?))
        }
        None => Ok(None),
    }
}

fn properties(alloc: Global, value: &Json) -> Result<Json, AllocError>
    ensures { IfOk result (λ p. IsKept (part K.Properties (node value.now)) (node p)) }
{
    match part(Key::Properties, value) {
        Some(w) => copy_json(alloc, w),
        None => Ok(Json::Array(0, List::new(alloc))),
    }
}

/// The tree of a file without faults.
pub(crate) fn file(alloc: Global, value: &Json) -> Result<JaniFile, AllocError>
    requires { faults F.Model (node value.now) ≡ [] }
    ensures { IfOk result (λ f. IsFile (node value.now) (file_of f)) }
{
    let constants = list(alloc, Form::Model, Form::Constants, Key::Constants, value);
    let variables = list(alloc, Form::Model, Form::Variables, Key::Variables, value);
    let automata = list(alloc, Form::Model, Form::Automata, Key::Automata, value);
    let begun = together(variables, restriction(alloc, value));
    let declared = together(actions(alloc, value), together(constants, begun));
    let composed = together(automata, system_of(alloc, value));
    let rest = together(composed, properties(alloc, value));
    let ((actions, (constants, (variables, restrict))), ((automata, system), properties)) =
        together(declared, rest)?;
    let Composition { elements, vectors } = system;
    let ElementList { list: elements, at } = elements;
    Ok(JaniFile {
        actions,
        constants,
        variables,
        restrict,
        automata,
        elements,
        elements_at: at,
        vectors,
        properties,
    })
}
