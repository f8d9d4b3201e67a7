// The words and numbers of the format (jani-model specification, version 1), and the reason against a value that may not
// stand where it does.
ghost use Rattle.std.specs.Prelude.{◌≡◌};
ghost use Rattle.jani_table.specs.Words.{feature_of, feature_text, has_value, is_base, kind_fault, name_fault, null_fault, number_fault, operator_fault, refused_of, refused_text, truth_fault, ty_of, ty_text, unless as spec_unless, word_fault};

use crate::operator::JaniOp;
use crate::table::Form;
use bridge_io::Reason;
use frac_core::{Decimal, Frac};
use op_trees::Ty;

const TYPES: [Ty; 3] = [Ty::Bool, Ty::Int, Ty::Real];

/// A type as it is written.
pub fn ty_text(ty: Ty) -> &'static str
    ensures { result.now ≡ ty_text ty }
{
    match ty {
        Ty::Bool => "bool",
        Ty::Int => "int",
        Ty::Real => "real",
    }
}

/// The type that is written so.
pub fn ty_of(text: &str) -> Option<Ty>
    ensures { result ≡ ty_of text.now }
{
    for ty in &TYPES {
        if ty_text(*ty) == text {
            return Some(*ty);
        }
    }
    None
}

fn is_base(text: &str) -> bool
    ensures { result ≡ is_base (ty_of text.now) }
{
    match ty_of(text) {
        Some(Ty::Int) => true,
        Some(Ty::Real) => true,
        _ => false,
    }
}

/// The features that a file may ask for. Neither changes how it is read.
#[derive(Clone, Copy)]
pub enum Feature {
    /// Operators that others express.
    DerivedOperators,
    /// Rewards that are given on leaving a state.
    StateExitRewards,
}

const FEATURES: [Feature; 2] = [Feature::DerivedOperators, Feature::StateExitRewards];

impl Feature {
    /// As it is written.
    pub fn text(self) -> &'static str
        ensures { result.now ≡ feature_text self }
    {
        match self {
            Feature::DerivedOperators => "derived-operators",
            Feature::StateExitRewards => "state-exit-rewards",
        }
    }

    /// The feature that is written so.
    pub fn of(text: &str) -> Option<Feature>
        ensures { result ≡ feature_of text.now }
    {
        for feature in &FEATURES {
            if feature.text() == text {
                return Some(*feature);
            }
        }
        None
    }
}

/// Operators of the standard that are left out.
#[derive(Clone, Copy)]
pub enum RefusedOp {
    Pow,
    Log,
    Abs,
    Sgn,
    Trc,
    Sin,
    Cos,
    Tan,
}

const REFUSED: [RefusedOp; 8] = [
    RefusedOp::Pow,
    RefusedOp::Log,
    RefusedOp::Abs,
    RefusedOp::Sgn,
    RefusedOp::Trc,
    RefusedOp::Sin,
    RefusedOp::Cos,
    RefusedOp::Tan,
];

impl RefusedOp {
    /// As it is written.
    pub fn text(self) -> &'static str
        ensures { result.now ≡ refused_text self }
    {
        match self {
            RefusedOp::Pow => "pow",
            RefusedOp::Log => "log",
            RefusedOp::Abs => "abs",
            RefusedOp::Sgn => "sgn",
            RefusedOp::Trc => "trc",
            RefusedOp::Sin => "sin",
            RefusedOp::Cos => "cos",
            RefusedOp::Tan => "tan",
        }
    }

    /// The operator that is written so.
    pub fn of(text: &str) -> Option<RefusedOp>
        ensures { result ≡ refused_of text.now }
    {
        for op in &REFUSED {
            if op.text() == text {
                return Some(*op);
            }
        }
        None
    }
}

fn unless(holds: bool, reason: Reason) -> Option<Reason>
    ensures { result ≡ spec_unless holds reason }
{
    if holds { None } else { Some(reason) }
}

/// The reason against a value of another kind than the form has.
pub fn kind_fault(form: Form) -> Option<Reason>
    ensures { result ≡ kind_fault form }
{
    match form {
        Form::Anything => None,
        Form::ModelType => Some(Reason::OtherKind),
        Form::LeftOut => Some(Reason::LeftOut),
        Form::Index => Some(Reason::LeftOut),
        Form::AutomatonInitial => Some(Reason::LeftOut),
        _ => Some(Reason::WrongShape),
    }
}

/// The reason against null.
pub fn null_fault(form: Form) -> Option<Reason>
    ensures { result ≡ null_fault form }
{
    match form {
        Form::NameOrNull => None,
        _ => kind_fault(form),
    }
}

/// The reason against true and false.
pub fn truth_fault(form: Form) -> Option<Reason>
    ensures { result ≡ truth_fault form }
{
    match form {
        Form::Truth => None,
        Form::Expression => None,
        _ => kind_fault(form),
    }
}

#[tactic(auto, using(crate::proofs::Values::wide_differs))]
fn has_value(number: Decimal, value: Frac) -> bool
    ensures { result ≡ has_value number value }
{
    let _num = value.num();
    match Frac::from_decimal(number) {
        Ok(x) => x == value,
        Err(_) => false,
    }
}

/// The reason against a number.
pub fn number_fault(form: Form, number: Decimal) -> Option<Reason>
    ensures { result ≡ number_fault form number }
{
    match form {
        Form::Expression => None,
        Form::Version => unless(has_value(number, Frac::one()), Reason::WrongShape),
        Form::Index => unless(has_value(number, Frac::zero()), Reason::LeftOut),
        _ => kind_fault(form),
    }
}

fn name_fault(text: &str) -> Option<Reason>
    ensures { result ≡ name_fault text.now }
{
    if text.is_empty() {
        return Some(Reason::WrongShape);
    }
    unless(text.len() < 256, Reason::TooLong)
}

fn operator_fault(text: &str) -> Option<Reason>
    ensures { result ≡ operator_fault text.now }
{
    if JaniOp::of(text).is_some() {
        return None;
    }
    Some(if RefusedOp::of(text).is_some() {
        Reason::LeftOut
    } else {
        Reason::WrongShape
    })
}

/// The reason against a string.
pub fn word_fault(form: Form, text: &str) -> Option<Reason>
    ensures { result ≡ word_fault form text.now }
{
    match form {
        Form::Text => None,
        Form::Name | Form::NameOrNull | Form::Expression => name_fault(text),
        Form::ModelType => unless(text == "mdp", Reason::OtherKind),
        Form::Feature => unless(Feature::of(text).is_some(), Reason::OtherFeature),
        Form::ConstantType | Form::VariableType => {
            unless(ty_of(text).is_some(), Reason::WrongShape)
        }
        Form::BoundedWord => unless(text == "bounded", Reason::WrongShape),
        Form::BaseWord => unless(is_base(text), Reason::WrongShape),
        Form::Operator => operator_fault(text),
        _ => kind_fault(form),
    }
}
