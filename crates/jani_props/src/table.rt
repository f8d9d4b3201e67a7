// What stands where in the properties of a file (jani-model specification, version 1, "Properties"): the objects, their members, and what
// each member has to be. Which forms are left out is this project's own rule.
ghost use Rattle.std.specs.Prelude.{◌≡◌};
ghost use Rattle.jani_props.specs.Table.{item_form, known_form, operand_form, own_row_of, own_rows, spelled_key};

use crate::words::Side;
use jani_table::{Form, Key, Kind, Need, known_form as table_known_form};

/// The key of a member.
#[derive(Clone, Copy)]
pub enum PropKey {
    /// one that objects of models have too
    Of(Key),
    /// `expression`
    Expression,
    /// `fun`
    Fun,
    /// `values`
    Values,
    /// `states`
    States,
    /// `accumulate`
    Accumulate,
    /// `reach`
    Reach,
    /// `step-bounds`
    StepBounds,
    /// `upper`
    Upper,
}

impl PropKey {
    /// As it is written.
    pub fn text(self) -> &'static str
        ensures { result.now ≡ spelled_key self }
    {
        match self {
            PropKey::Of(key) => key.text(),
            PropKey::Expression => "expression",
            PropKey::Fun => "fun",
            PropKey::Values => "values",
            PropKey::States => "states",
            PropKey::Accumulate => "accumulate",
            PropKey::Reach => "reach",
            PropKey::StepBounds => "step-bounds",
            PropKey::Upper => "upper",
        }
    }
}

/// What a value has to be.
#[derive(Clone, Copy)]
pub enum PropForm {
    /// the list of the properties of a file
    Properties,
    /// a property
    Property,
    /// the filter of a property, over the initial states
    Filter,
    /// what a filter asks of its states
    Values,
    /// the probability that is compared with a bound
    Compared(Side),
    /// a set of paths
    Path,
    /// a bound of steps
    Steps,
    /// the states of a filter: the initial ones
    States,
    /// how a filter makes one value of the values of its states
    Fun,
    /// when rewards are counted
    Sums,
    /// one of these words
    Sum,
    /// an expression
    Expression,
    /// the word of an operator
    Operator,
    /// a name: a string of 1 to 255 bytes
    Name,
    /// any string
    Note,
    /// any value: the word by which the table of the object was chosen
    Chosen,
    /// a form that is left out, whatever it is
    LeftOut,
}

/// The objects of properties. Each has a table of members.
#[derive(Clone, Copy)]
pub enum PropKind {
    /// a property
    Property,
    /// a filter
    Filter,
    /// the greatest or the least probability
    Probability,
    /// the greatest or the least reward
    Reward,
    /// a comparison of a probability with a bound
    Comparison(Side),
    /// a set of paths of one expression
    OnePath,
    /// a set of paths of two expressions
    TwoPaths,
    /// a bound of steps
    StepBound,
    /// a label that every model has
    Label,
    /// an operator, as in the expressions of a model
    Operation(Kind),
}

/// A member that an object may have, whether it has to, and what its value has to be.
pub type PropRow = (PropKey, Need, PropForm);

// The members of a property.
const PROPERTY: [PropRow; 3] = [
    (PropKey::Of(Key::Name), Need::Required, PropForm::Name),
    (PropKey::Expression, Need::Required, PropForm::Filter),
    (PropKey::Of(Key::Comment), Need::Optional, PropForm::Note),
];

// The members of a filter.
const FILTER: [PropRow; 5] = [
    (PropKey::Of(Key::Op), Need::Required, PropForm::Chosen),
    (PropKey::Fun, Need::Required, PropForm::Fun),
    (PropKey::Values, Need::Required, PropForm::Values),
    (PropKey::States, Need::Required, PropForm::States),
    (PropKey::Of(Key::Comment), Need::Optional, PropForm::Note),
];

// The members of the greatest or the least probability.
const PROBABILITY: [PropRow; 3] = [
    (PropKey::Of(Key::Op), Need::Required, PropForm::Chosen),
    (PropKey::Of(Key::Exp), Need::Required, PropForm::Path),
    (PropKey::Of(Key::Comment), Need::Optional, PropForm::Note),
];

// The members of the greatest or the least reward.
const REWARD: [PropRow; 5] = [
    (PropKey::Of(Key::Op), Need::Required, PropForm::Chosen),
    (PropKey::Of(Key::Exp), Need::Required, PropForm::Name),
    (PropKey::Accumulate, Need::Required, PropForm::Sums),
    (PropKey::Reach, Need::Required, PropForm::Expression),
    (PropKey::Of(Key::Comment), Need::Optional, PropForm::Note),
];

// The members of a comparison with a bound from below.
const FROM_BELOW: [PropRow; 5] = [
    (PropKey::Of(Key::Op), Need::Required, PropForm::Chosen),
    (
        PropKey::Of(Key::Left),
        Need::Required,
        PropForm::Compared(Side::Least),
    ),
    (
        PropKey::Of(Key::Right),
        Need::Required,
        PropForm::Expression,
    ),
    (
        PropKey::Of(Key::Constant),
        Need::Optional,
        PropForm::LeftOut,
    ),
    (PropKey::Of(Key::Comment), Need::Optional, PropForm::Note),
];

// The members of a comparison with a bound from above.
const FROM_ABOVE: [PropRow; 5] = [
    (PropKey::Of(Key::Op), Need::Required, PropForm::Chosen),
    (
        PropKey::Of(Key::Left),
        Need::Required,
        PropForm::Compared(Side::Greatest),
    ),
    (
        PropKey::Of(Key::Right),
        Need::Required,
        PropForm::Expression,
    ),
    (
        PropKey::Of(Key::Constant),
        Need::Optional,
        PropForm::LeftOut,
    ),
    (PropKey::Of(Key::Comment), Need::Optional, PropForm::Note),
];

// The members of a set of paths of one expression.
const ONE_PATH: [PropRow; 4] = [
    (PropKey::Of(Key::Op), Need::Required, PropForm::Chosen),
    (PropKey::Of(Key::Exp), Need::Required, PropForm::Expression),
    (PropKey::StepBounds, Need::Optional, PropForm::Steps),
    (PropKey::Of(Key::Comment), Need::Optional, PropForm::Note),
];

// The members of a set of paths of two expressions.
const TWO_PATHS: [PropRow; 5] = [
    (PropKey::Of(Key::Op), Need::Required, PropForm::Chosen),
    (PropKey::Of(Key::Left), Need::Required, PropForm::Expression),
    (
        PropKey::Of(Key::Right),
        Need::Required,
        PropForm::Expression,
    ),
    (PropKey::StepBounds, Need::Optional, PropForm::Steps),
    (PropKey::Of(Key::Comment), Need::Optional, PropForm::Note),
];

// The members of a bound of steps.
const STEP_BOUND: [PropRow; 2] = [
    (PropKey::Upper, Need::Required, PropForm::Expression),
    (PropKey::Of(Key::Comment), Need::Optional, PropForm::Note),
];

// The members of a label that every model has.
const LABEL: [PropRow; 2] = [
    (PropKey::Of(Key::Op), Need::Required, PropForm::Chosen),
    (PropKey::Of(Key::Comment), Need::Optional, PropForm::Note),
];

/// The members of an object of properties alone; none of an operator, whose members are those of jani_table.
pub(crate) fn own_rows(kind: PropKind) -> &'static [PropRow]
    ensures { result.now ≡ own_rows kind }
{
    match kind {
        PropKind::Property => &PROPERTY,
        PropKind::Filter => &FILTER,
        PropKind::Probability => &PROBABILITY,
        PropKind::Reward => &REWARD,
        PropKind::Comparison(Side::Least) => &FROM_BELOW,
        PropKind::Comparison(Side::Greatest) => &FROM_ABOVE,
        PropKind::OnePath => &ONE_PATH,
        PropKind::TwoPaths => &TWO_PATHS,
        PropKind::StepBound => &STEP_BOUND,
        PropKind::Label => &LABEL,
        PropKind::Operation(_) => &[],
    }
}

/// What the value of an operator's member has to be, by what it has to be in a model.
pub(crate) fn operand_form(form: Form) -> PropForm
    ensures { result ≡ operand_form form }
{
    match form {
        Form::Expression => PropForm::Expression,
        Form::Operator => PropForm::Operator,
        Form::LeftOut => PropForm::LeftOut,
        _ => PropForm::Note,
    }
}

fn own_row(kind: PropKind, key: &str) -> Option<PropRow>
    ensures { result ≡ own_row_of kind key.now }
{
    for row in own_rows(kind) {
        if row.0.text() == key {
            return Some(*row);
        }
    }
    None
}

/// What the value of a member with this key has to be; none where an object of this kind has no such member.
pub(crate) fn known_form(kind: PropKind, key: &str) -> Option<PropForm>
    ensures { result ≡ known_form kind key.now }
{
    match kind {
        PropKind::Operation(kind) => table_known_form(kind, key).map(operand_form),
        _ => own_row(kind, key).map(|row| row.2),
    }
}

/// What the items of a list have to be; none where no list may stand.
pub(crate) fn item_form(form: PropForm) -> Option<PropForm>
    ensures { result ≡ item_form form }
{
    match form {
        PropForm::Properties => Some(PropForm::Property),
        PropForm::Sums => Some(PropForm::Sum),
        _ => None,
    }
}
