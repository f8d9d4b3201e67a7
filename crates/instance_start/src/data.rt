//! What a model is made of when it starts.

use bridge_io::Text;
use frac_core::Frac;
use op_trees::{EvalFail, Ty, Value};

/// A constant of a model: its name, its type, and whether it is left open.
#[derive(Clone, Copy)]
pub struct Constant<'a> {
    pub name: &'a Text,
    pub ty: Ty,
    pub is_open: bool,
}

/// What the bounds of a variable come out as.
#[derive(Clone, Copy)]
pub struct Bounds {
    pub low: Result<Value, EvalFail>,
    pub high: Result<Value, EvalFail>,
}

/// A variable of a model: its name, what its bounds come out as, and its first value, if it has one. Without bounds its values
/// are the truth values.
#[derive(Clone, Copy)]
pub struct Variable<'a> {
    pub name: &'a Text,
    pub bounds: Option<Bounds>,
    pub first: Option<Result<Value, EvalFail>>,
}

/// The whole numbers between two bounds.
#[derive(Clone, Copy)]
pub(crate) struct Range {
    pub(crate) low: Frac,
    pub(crate) high: Frac,
}

/// What a name stands for: the constant or the variable of this number.
#[derive(Clone, Copy)]
pub enum Place {
    Constant(usize),
    Variable(usize),
}

/// The values of a variable: truth values, or the whole numbers between two bounds.
#[derive(Clone, Copy)]
pub enum Domain {
    Truths,
    Between(Frac, Frac),
}

/// What a variable may begin with: any value, none at all, since its first value is undefined, or this one.
#[derive(Clone, Copy)]
pub enum First {
    Any,
    Nothing,
    Only(Value),
}

/// A variable: its name, its values, and what it may begin with.
#[derive(Clone, Copy)]
pub struct Column<'a> {
    pub name: &'a Text,
    pub domain: Domain,
    pub first: First,
}
