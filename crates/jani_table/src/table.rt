// What stands where in a file (jani-model specification, version 1): the objects, their members, and what each member has
// to be.
ghost use Rattle.std.specs.Prelude.{◌≡◌};
ghost use Rattle.jani_table.specs.Table.{item_form, known_form, row_of, rows_of};

use crate::key::Key;

/// What a value has to be.
#[derive(Clone, Copy)]
pub enum Form {
    /// any string
    Text,
    /// a name: a string of 1 to 255 bytes
    Name,
    /// a name, or null
    NameOrNull,
    /// the number 1
    Version,
    /// the string "mdp"
    ModelType,
    /// the name of a feature that may be asked for
    Feature,
    /// a form that is left out, whatever it is
    LeftOut,
    /// any value; what stands in it is passed over unread
    Anything,
    /// true or false
    Truth,
    /// the type of a constant
    ConstantType,
    /// the type of a variable
    VariableType,
    /// the string "bounded"
    BoundedWord,
    /// the type that a bounded type stands on
    BaseWord,
    /// the word of an operator
    Operator,
    /// an expression
    Expression,
    /// an object with an expression
    Boxed,
    /// the condition on the initial states of an automaton, which has to be true
    AutomatonInitial,
    /// the number 0
    Index,
    /// the actions that an automaton accepts everywhere; there may be none
    InputEnable,
    /// a model
    Model,
    /// an action
    Action,
    /// a constant
    Constant,
    /// a variable
    Variable,
    /// an automaton
    Automaton,
    /// a location
    Location,
    /// a transient value
    TransientValue,
    /// an edge
    Edge,
    /// a destination
    Destination,
    /// an assignment
    Assignment,
    /// a composition
    System,
    /// an element of the composition
    Element,
    /// a synchronisation vector
    Vector,
    /// a list of features
    Features,
    /// a list of actions
    Actions,
    /// a list of constants
    Constants,
    /// a list of variables
    Variables,
    /// a list of automata
    Automata,
    /// a list of locations
    Locations,
    /// a list of one name
    InitialLocations,
    /// a list of transient values
    TransientValues,
    /// a list of edges
    Edges,
    /// a list of at least one destination
    Destinations,
    /// a list of assignments
    Assignments,
    /// a list of elements
    Elements,
    /// a list of synchronisation vectors
    Vectors,
    /// a list of names and nulls
    Synchronise,
}

/// The objects of the format. Each has a table of members.
#[derive(Clone, Copy)]
pub enum Kind {
    /// a model
    Model,
    /// an action
    Action,
    /// a constant
    Constant,
    /// the bounded type of a constant, which is left out
    ConstantRange,
    /// a variable
    Variable,
    /// the bounded type of a variable
    Range,
    /// an automaton
    Automaton,
    /// a location
    Location,
    /// a transient value
    TransientValue,
    /// an edge
    Edge,
    /// a destination
    Destination,
    /// an assignment
    Assignment,
    /// a composition of automata
    System,
    /// an element of the composition
    Element,
    /// a synchronisation vector
    Vector,
    /// a guard or a probability
    Boxed,
    /// the condition on the initial states of an automaton
    AutomatonInitial,
    /// an operator with one operand
    Unary,
    /// an operator with two operands
    Binary,
    /// the operator with three operands
    Choice,
    /// an expression whose operator is missing or is none of those that are read
    Unclear,
}

/// Whether a member has to be there.
#[derive(Clone, Copy)]
pub enum Need {
    /// It has to be there.
    Required,
    /// It may be missing, or a rule of the object's own says when it has to be there.
    Optional,
}

/// A member that an object may have, whether it has to, and what its value has to be.
pub type Row = (Key, Need, Form);

// The members of a model.
const MODEL: [Row; 14] = [
    (Key::JaniVersion, Need::Required, Form::Version),
    (Key::Name, Need::Required, Form::Text),
    (Key::Type, Need::Required, Form::ModelType),
    (Key::Features, Need::Optional, Form::Features),
    (Key::Actions, Need::Optional, Form::Actions),
    (Key::Constants, Need::Optional, Form::Constants),
    (Key::Variables, Need::Optional, Form::Variables),
    (Key::RestrictInitial, Need::Optional, Form::Boxed),
    (Key::Properties, Need::Optional, Form::Anything),
    (Key::Automata, Need::Required, Form::Automata),
    (Key::System, Need::Required, Form::System),
    (Key::Functions, Need::Optional, Form::LeftOut),
    (Key::Metadata, Need::Optional, Form::Anything),
    (Key::Comment, Need::Optional, Form::Text),
];

// The members of an action.
const ACTION: [Row; 2] = [
    (Key::Name, Need::Required, Form::Name),
    (Key::Comment, Need::Optional, Form::Text),
];

// The members of a constant.
const CONSTANT: [Row; 4] = [
    (Key::Name, Need::Required, Form::Name),
    (Key::Type, Need::Required, Form::ConstantType),
    (Key::Value, Need::Optional, Form::Expression),
    (Key::Comment, Need::Optional, Form::Text),
];

// The members of a variable.
const VARIABLE: [Row; 5] = [
    (Key::Name, Need::Required, Form::Name),
    (Key::Type, Need::Required, Form::VariableType),
    (Key::Transient, Need::Optional, Form::Truth),
    (Key::InitialValue, Need::Optional, Form::Expression),
    (Key::Comment, Need::Optional, Form::Text),
];

// The members of a bounded type.
const RANGE: [Row; 5] = [
    (Key::Kind, Need::Required, Form::BoundedWord),
    (Key::Base, Need::Required, Form::BaseWord),
    (Key::LowerBound, Need::Optional, Form::Expression),
    (Key::UpperBound, Need::Optional, Form::Expression),
    (Key::Comment, Need::Optional, Form::Text),
];

// The members of an automaton.
const AUTOMATON: [Row; 8] = [
    (Key::Name, Need::Required, Form::Name),
    (Key::Variables, Need::Optional, Form::Variables),
    (Key::Locations, Need::Required, Form::Locations),
    (
        Key::InitialLocations,
        Need::Required,
        Form::InitialLocations,
    ),
    (Key::Edges, Need::Required, Form::Edges),
    (Key::RestrictInitial, Need::Optional, Form::AutomatonInitial),
    (Key::Functions, Need::Optional, Form::LeftOut),
    (Key::Comment, Need::Optional, Form::Text),
];

// The members of a location.
const LOCATION: [Row; 4] = [
    (Key::Name, Need::Required, Form::Name),
    (Key::TransientValues, Need::Optional, Form::TransientValues),
    (Key::TimeProgress, Need::Optional, Form::LeftOut),
    (Key::Comment, Need::Optional, Form::Text),
];

// The members of a transient value.
const TRANSIENT_VALUE: [Row; 3] = [
    (Key::Ref, Need::Required, Form::Name),
    (Key::Value, Need::Required, Form::Expression),
    (Key::Comment, Need::Optional, Form::Text),
];

// The members of an edge.
const EDGE: [Row; 6] = [
    (Key::Location, Need::Required, Form::Name),
    (Key::Action, Need::Optional, Form::Name),
    (Key::Guard, Need::Optional, Form::Boxed),
    (Key::Destinations, Need::Required, Form::Destinations),
    (Key::Rate, Need::Optional, Form::LeftOut),
    (Key::Comment, Need::Optional, Form::Text),
];

// The members of a destination.
const DESTINATION: [Row; 4] = [
    (Key::Location, Need::Required, Form::Name),
    (Key::Probability, Need::Optional, Form::Boxed),
    (Key::Assignments, Need::Optional, Form::Assignments),
    (Key::Comment, Need::Optional, Form::Text),
];

// The members of an assignment.
const ASSIGNMENT: [Row; 4] = [
    (Key::Ref, Need::Required, Form::Name),
    (Key::Value, Need::Required, Form::Expression),
    (Key::Index, Need::Optional, Form::Index),
    (Key::Comment, Need::Optional, Form::Text),
];

// The members of a composition of automata.
const SYSTEM: [Row; 3] = [
    (Key::Elements, Need::Required, Form::Elements),
    (Key::Syncs, Need::Optional, Form::Vectors),
    (Key::Comment, Need::Optional, Form::Text),
];

// The members of an element of the composition.
const ELEMENT: [Row; 3] = [
    (Key::Automaton, Need::Required, Form::Name),
    (Key::InputEnable, Need::Optional, Form::InputEnable),
    (Key::Comment, Need::Optional, Form::Text),
];

// The members of a synchronisation vector.
const VECTOR: [Row; 3] = [
    (Key::Synchronise, Need::Required, Form::Synchronise),
    (Key::Result, Need::Optional, Form::Name),
    (Key::Comment, Need::Optional, Form::Text),
];

// The members of a guard, a probability or a condition on initial states.
const BOXED: [Row; 2] = [
    (Key::Exp, Need::Required, Form::Expression),
    (Key::Comment, Need::Optional, Form::Text),
];

// The members of an operator with one operand.
const UNARY: [Row; 4] = [
    (Key::Op, Need::Required, Form::Operator),
    (Key::Exp, Need::Required, Form::Expression),
    (Key::Constant, Need::Optional, Form::LeftOut),
    (Key::Comment, Need::Optional, Form::Text),
];

// The members of an operator with two operands.
const BINARY: [Row; 5] = [
    (Key::Op, Need::Required, Form::Operator),
    (Key::Left, Need::Required, Form::Expression),
    (Key::Right, Need::Required, Form::Expression),
    (Key::Constant, Need::Optional, Form::LeftOut),
    (Key::Comment, Need::Optional, Form::Text),
];

// The members of the operator with three operands.
const CHOICE: [Row; 6] = [
    (Key::Op, Need::Required, Form::Operator),
    (Key::If, Need::Required, Form::Expression),
    (Key::Then, Need::Required, Form::Expression),
    (Key::Else, Need::Required, Form::Expression),
    (Key::Constant, Need::Optional, Form::LeftOut),
    (Key::Comment, Need::Optional, Form::Text),
];

// The members of an expression whose operator is missing or is none of those that are read.
const UNCLEAR: [Row; 9] = [
    (Key::Op, Need::Required, Form::Operator),
    (Key::Exp, Need::Optional, Form::Expression),
    (Key::Left, Need::Optional, Form::Expression),
    (Key::Right, Need::Optional, Form::Expression),
    (Key::If, Need::Optional, Form::Expression),
    (Key::Then, Need::Optional, Form::Expression),
    (Key::Else, Need::Optional, Form::Expression),
    (Key::Constant, Need::Optional, Form::LeftOut),
    (Key::Comment, Need::Optional, Form::Text),
];

/// The members of an object.
pub fn rows(kind: Kind) -> &'static [Row]
    ensures { result.now ≡ rows_of kind }
{
    match kind {
        Kind::Model => &MODEL,
        Kind::Action => &ACTION,
        Kind::Constant => &CONSTANT,
        Kind::ConstantRange => &RANGE,
        Kind::Variable => &VARIABLE,
        Kind::Range => &RANGE,
        Kind::Automaton => &AUTOMATON,
        Kind::Location => &LOCATION,
        Kind::TransientValue => &TRANSIENT_VALUE,
        Kind::Edge => &EDGE,
        Kind::Destination => &DESTINATION,
        Kind::Assignment => &ASSIGNMENT,
        Kind::System => &SYSTEM,
        Kind::Element => &ELEMENT,
        Kind::Vector => &VECTOR,
        Kind::Boxed => &BOXED,
        Kind::AutomatonInitial => &BOXED,
        Kind::Unary => &UNARY,
        Kind::Binary => &BINARY,
        Kind::Choice => &CHOICE,
        Kind::Unclear => &UNCLEAR,
    }
}

fn row(kind: Kind, key: &str) -> Option<Row>
    ensures { result ≡ row_of kind key.now }
{
    for row in rows(kind) {
        if row.0.text() == key {
            return Some(*row);
        }
    }
    None
}

/// What the value of a member with this key has to be; none where an object of this kind has no such member.
pub fn known_form(kind: Kind, key: &str) -> Option<Form>
    ensures { result ≡ known_form kind key.now }
{
    match row(kind, key) {
        Some(row) => Some(row.2),
        None => None,
    }
}

/// What the items of a list have to be; none where no list may stand.
pub fn item_form(form: Form) -> Option<Form>
    ensures { result ≡ item_form form }
{
    match form {
        Form::Features => Some(Form::Feature),
        Form::Actions => Some(Form::Action),
        Form::Constants => Some(Form::Constant),
        Form::Variables => Some(Form::Variable),
        Form::Automata => Some(Form::Automaton),
        Form::Locations => Some(Form::Location),
        Form::InitialLocations => Some(Form::Name),
        Form::TransientValues => Some(Form::TransientValue),
        Form::Edges => Some(Form::Edge),
        Form::Destinations => Some(Form::Destination),
        Form::Assignments => Some(Form::Assignment),
        Form::Elements => Some(Form::Element),
        Form::Vectors => Some(Form::Vector),
        Form::Synchronise => Some(Form::NameOrNull),
        Form::InputEnable => Some(Form::Name),
        _ => None,
    }
}
