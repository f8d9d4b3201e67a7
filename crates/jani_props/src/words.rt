// The words of properties (jani-model specification, version 1, "Properties"), and what each form makes of a value that is no object.
ghost use Rattle.std.specs.Prelude.{◌≡◌};
ghost use Rattle.std.specs.Option.{option_map};
ghost use Rattle.jani_props.specs.Words.{bound_side, compare_of, fun_of, fun_text, kind_fault, label_name, op_word_of, plain_fault, prop_op_of, prop_text, property_left_out, side_of, side_op, word_fault};

use crate::table::PropForm;
use bridge_io::Reason;
use jani_table::{Form, JaniOp, word_fault as table_word_fault};
use prop_grammar::Compare;

/// The words that are an "op" of a property and no operator of expressions.
#[derive(Clone, Copy)]
pub enum PropOp {
    /// `filter`
    Filter,
    /// `Pmin`
    PMin,
    /// `Pmax`
    PMax,
    /// `Smin`
    SMin,
    /// `Smax`
    SMax,
    /// `Emin`
    EMin,
    /// `Emax`
    EMax,
    /// `∀`
    ForAll,
    /// `∃`
    Exists,
    /// `U`
    Until,
    /// `W`
    WeakUntil,
    /// `F`
    Finally,
    /// `G`
    Globally,
    /// `R`
    Release,
    /// `initial`
    Initial,
    /// `deadlock`
    Deadlock,
    /// `timelock`
    Timelock,
}

const PROP_OPS: [PropOp; 17] = [
    PropOp::Filter,
    PropOp::PMin,
    PropOp::PMax,
    PropOp::SMin,
    PropOp::SMax,
    PropOp::EMin,
    PropOp::EMax,
    PropOp::ForAll,
    PropOp::Exists,
    PropOp::Until,
    PropOp::WeakUntil,
    PropOp::Finally,
    PropOp::Globally,
    PropOp::Release,
    PropOp::Initial,
    PropOp::Deadlock,
    PropOp::Timelock,
];

impl PropOp {
    /// As it is written.
    pub fn text(self) -> &'static str
        ensures { result.now ≡ prop_text self }
    {
        match self {
            PropOp::Filter => "filter",
            PropOp::PMin => "Pmin",
            PropOp::PMax => "Pmax",
            PropOp::SMin => "Smin",
            PropOp::SMax => "Smax",
            PropOp::EMin => "Emin",
            PropOp::EMax => "Emax",
            PropOp::ForAll => "∀",
            PropOp::Exists => "∃",
            PropOp::Until => "U",
            PropOp::WeakUntil => "W",
            PropOp::Finally => "F",
            PropOp::Globally => "G",
            PropOp::Release => "R",
            PropOp::Initial => "initial",
            PropOp::Deadlock => "deadlock",
            PropOp::Timelock => "timelock",
        }
    }

    /// The word that is written so.
    pub fn of(text: &str) -> Option<PropOp>
        ensures { result ≡ prop_op_of text.now }
    {
        for op in &PROP_OPS {
            if op.text() == text {
                return Some(*op);
            }
        }
        None
    }
}

/// What the "op" of an object is.
#[derive(Clone, Copy)]
pub enum OpWord {
    /// a word of properties
    Property(PropOp),
    /// an operator of expressions
    Operator(JaniOp),
    /// another word, or none
    Other,
}

impl OpWord {
    /// What a word is.
    pub fn of(text: &str) -> OpWord
        ensures { result ≡ op_word_of text.now }
    {
        match PropOp::of(text) {
            Some(op) => OpWord::Property(op),
            None => match JaniOp::of(text) {
                Some(op) => OpWord::Operator(op),
                None => OpWord::Other,
            },
        }
    }
}

/// How a filter makes one value of the values of its states.
#[derive(Clone, Copy)]
pub enum Fun {
    /// `max`
    Max,
    /// `min`
    Min,
    /// `values`
    Values,
    /// `∀`
    ForAll,
}

const FUNS: [Fun; 4] = [Fun::Max, Fun::Min, Fun::Values, Fun::ForAll];

impl Fun {
    /// As it is written.
    pub fn text(self) -> &'static str
        ensures { result.now ≡ fun_text self }
    {
        match self {
            Fun::Max => "max",
            Fun::Min => "min",
            Fun::Values => "values",
            Fun::ForAll => "∀",
        }
    }

    /// The word that is written so.
    pub fn of(text: &str) -> Option<Fun>
        ensures { result ≡ fun_of text.now }
    {
        for word in &FUNS {
            if word.text() == text {
                return Some(*word);
            }
        }
        None
    }
}

/// Which probability is compared with a bound: the least with a bound from below, the greatest with one from above.
#[derive(Clone, Copy)]
pub enum Side {
    Least,
    Greatest,
}

/// The comparison that an operator is, if it is one of those of properties.
pub(crate) fn compare_of(op: JaniOp) -> Option<Compare>
    ensures { result ≡ compare_of op }
{
    match op {
        JaniOp::Less => Some(Compare::Less),
        JaniOp::AtMost => Some(Compare::AtMost),
        JaniOp::AtLeast => Some(Compare::AtLeast),
        JaniOp::Greater => Some(Compare::Greater),
        _ => None,
    }
}

/// The name of a label that every model has.
pub(crate) fn label_name(op: PropOp) -> Option<&'static str>
    ensures { option_map (λ s. s.now) result ≡ label_name op }
{
    match op {
        PropOp::Initial => Some("init"),
        PropOp::Deadlock => Some("deadlock"),
        _ => None,
    }
}

/// The probability that is compared so.
pub(crate) fn side_of(compare: Compare) -> Side
    ensures { result ≡ side_of compare }
{
    match compare {
        Compare::Less => Side::Greatest,
        Compare::AtMost => Side::Greatest,
        Compare::AtLeast => Side::Least,
        Compare::Greater => Side::Least,
    }
}

/// The word of this probability.
pub(crate) fn side_op(side: Side) -> PropOp
    ensures { result ≡ side_op side }
{
    match side {
        Side::Least => PropOp::PMin,
        Side::Greatest => PropOp::PMax,
    }
}

/// The probability that is compared by an operator.
pub(crate) fn bound_side(op: JaniOp) -> Option<Side>
    ensures { result ≡ bound_side op }
{
    compare_of(op).map(side_of)
}

/// The reason against a value of another kind than the form has.
pub(crate) fn kind_fault(form: PropForm) -> Option<Reason>
    ensures { result ≡ kind_fault form }
{
    match form {
        PropForm::Chosen => None,
        PropForm::LeftOut => Some(Reason::PropertyLeftOut),
        _ => Some(Reason::WrongShape),
    }
}

/// The reason against true, false and numbers.
pub(crate) fn plain_fault(form: PropForm) -> Option<Reason>
    ensures { result ≡ plain_fault form }
{
    match form {
        PropForm::Expression => None,
        PropForm::Compared(_) => None,
        _ => kind_fault(form),
    }
}

// What is left out in a model is left out in its properties, and told so.
fn property_left_out(reason: Option<Reason>) -> Option<Reason>
    ensures { result ≡ property_left_out reason }
{
    match reason {
        Some(Reason::LeftOut) => Some(Reason::PropertyLeftOut),
        _ => reason,
    }
}

/// The reason against a string.
pub(crate) fn word_fault(form: PropForm, text: &str) -> Option<Reason>
    ensures { result ≡ word_fault form text.now }
{
    match form {
        PropForm::Expression => table_word_fault(Form::Expression, text),
        PropForm::Name => table_word_fault(Form::Name, text),
        PropForm::Operator => property_left_out(table_word_fault(Form::Operator, text)),
        PropForm::Note => None,
        PropForm::Fun => None,
        PropForm::Sum => None,
        PropForm::Compared(_) => None,
        _ => kind_fault(form),
    }
}
