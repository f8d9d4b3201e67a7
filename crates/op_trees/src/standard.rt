// The operators that languages have in common (PRISM manual, "Expressions"; jani-model specification, version 1,
// "Expressions"): each language has its own names for them, and reads its operators as these.

ghost use Rattle.std.specs.Prelude.{◌≡◌, Some};
ghost use Rattle.op_trees.specs.Meaning.{narrowed};
ghost use Rattle.op_trees.specs.declared.tree.Value.TheVariants as V;
ghost use Rattle.op_trees.specs.declared.standard.StandardOp.TheVariants.{Neg, Mod};
ghost use Rattle.op_trees.specs.Standard.{after_and, after_or, after_implies, after_test, answer_of, sort_one, sort_two, sort_three, joined, is_less, of_one, of_two, of_numbers, of_truths};

use crate::operator::Operator;
use crate::tree::{EvalFail, Next, Ty, Value};
use frac_core::{Frac, FracFail};
use std::cmp::Ordering;

/// Operators by what they mean, however a language writes them.
#[derive(Clone, Copy, PartialEq, Eq)]
pub enum StandardOp {
    /// minus with one operand
    Neg,
    /// product
    Mul,
    /// quotient
    Div,
    /// sum
    Add,
    /// difference
    Sub,
    /// less
    Less,
    /// at most
    AtMost,
    /// at least
    AtLeast,
    /// greater
    Greater,
    /// equal: two numbers or two truth values
    Equal,
    /// not equal
    Unequal,
    /// not
    Not,
    /// and: the second operand is read only if the first one is true
    And,
    /// or: the second operand is read only if the first one is false
    Or,
    /// two truth values that are equal
    Iff,
    /// the second operand is read only if the first one is true
    Implies,
    /// if, then, else: one of the last two operands is read
    Ite,
    /// the lesser of two numbers
    Min,
    /// the greater of two numbers
    Max,
    /// the greatest whole number that is at most this
    Floor,
    /// the least whole number that is at least this
    Ceil,
    /// what is left of a division of whole numbers, from 0 on; none by a divisor of at most 0
    Mod,
}

impl Operator for StandardOp {
    ghost use Rattle.std.proofs.Common.{rules};
    ghost use Rattle.op_trees.specs.Standard.{standard_meaning};
    ghost use Rattle.op_trees.specs.StandardLaws.{standard_lawful};

    ghost meaning = { standard_meaning };

    ghost laws = { standard_lawful };

    ghost same_law = { Prim.search rules };

    fn arity(self) -> u8 {
        match self {
            StandardOp::Neg | StandardOp::Not | StandardOp::Floor | StandardOp::Ceil => 1,
            StandardOp::Ite => 3,
            _ => 2,
        }
    }

    fn sort(self, a: Ty, b: Option<Ty>, c: Option<Ty>) -> Option<Ty> {
        match (b, c) {
            (None, None) => self.sort_one(a),
            (Some(b), None) => self.sort_two(a, b),
            (Some(b), Some(c)) => self.sort_three(a, b, c),
            (None, Some(_)) => None,
        }
    }

    fn is_strict(self) -> bool {
        !matches!(
            self,
            StandardOp::And | StandardOp::Or | StandardOp::Implies | StandardOp::Ite
        )
    }

    fn after_first(self, first: Value) -> Next {
        match self {
            StandardOp::And => after_and(first),
            StandardOp::Or => after_or(first),
            StandardOp::Implies => after_implies(first),
            StandardOp::Ite => after_test(first),
            _ => Next::All,
        }
    }

    fn apply(self, a: Value, b: Option<Value>) -> Result<Value, EvalFail> {
        match b {
            None => self.of_one(a),
            Some(b) => self.of_two(a, b),
        }
    }
}

impl StandardOp {
    fn sort_one(self, a: Ty) -> Option<Ty>
        ensures { result ≡ sort_one self a }
    {
        match (self, a) {
            (StandardOp::Neg, Ty::Int | Ty::Real) => Some(a),
            (StandardOp::Floor | StandardOp::Ceil, Ty::Int | Ty::Real) => Some(Ty::Int),
            (StandardOp::Not, Ty::Bool) => Some(Ty::Bool),
            _ => None,
        }
    }

    fn sort_two(self, a: Ty, b: Ty) -> Option<Ty>
        ensures { result ≡ sort_two self a b }
    {
        match self {
            StandardOp::Mul
            | StandardOp::Add
            | StandardOp::Sub
            | StandardOp::Min
            | StandardOp::Max => joined(a, b),
            StandardOp::Div => joined(a, b).map(|_| Ty::Real),
            StandardOp::Less | StandardOp::AtMost | StandardOp::AtLeast | StandardOp::Greater => {
                joined(a, b).map(|_| Ty::Bool)
            }
            StandardOp::Equal | StandardOp::Unequal => match (a, b) {
                (Ty::Bool, Ty::Bool) => Some(Ty::Bool),
                _ => joined(a, b).map(|_| Ty::Bool),
            },
            StandardOp::And | StandardOp::Or | StandardOp::Iff | StandardOp::Implies => match (
                a, b,
            ) {
                (Ty::Bool, Ty::Bool) => Some(Ty::Bool),
                _ => None,
            },
            StandardOp::Mod => match (a, b) {
                (Ty::Int, Ty::Int) => Some(Ty::Int),
                _ => None,
            },
            _ => None,
        }
    }

    fn sort_three(self, a: Ty, b: Ty, c: Ty) -> Option<Ty>
        ensures { result ≡ sort_three self a b c }
    {
        match (self, a, b, c) {
            (StandardOp::Ite, Ty::Bool, Ty::Bool, Ty::Bool) => Some(Ty::Bool),
            (StandardOp::Ite, Ty::Bool, _, _) => joined(b, c),
            _ => None,
        }
    }

    fn of_one(self, a: Value) -> Result<Value, EvalFail>
        ensures { result ≡ narrowed (of_one self a) }
    {
        match (self, a) {
            (StandardOp::Neg, Value::Number(x)) => negated(x),
            (StandardOp::Floor, Value::Number(x)) => held(x.floor()),
            (StandardOp::Ceil, Value::Number(x)) => held(x.ceil()),
            (StandardOp::Not, Value::Truth(p)) => Ok(Value::Truth(!p)),
            _ => Err(EvalFail::Undef),
        }
    }

    fn of_two(self, a: Value, b: Value) -> Result<Value, EvalFail>
        ensures { result ≡ narrowed (of_two self a b) }
    {
        match a {
            Value::Number(x) => match b {
                Value::Number(y) => self.of_numbers(x, y),
                Value::Truth(_) => Err(EvalFail::Undef),
            },
            Value::Truth(p) => match b {
                Value::Truth(q) => self.of_truths(p, q),
                Value::Number(_) => Err(EvalFail::Undef),
            },
        }
    }

    fn of_numbers(self, x: Frac, y: Frac) -> Result<Value, EvalFail>
        ensures { result ≡ narrowed (of_numbers self x y) }
    {
        match self {
            StandardOp::Mul => exact(x.mul(y)),
            StandardOp::Div => exact(x.div(y)),
            StandardOp::Add => exact(x.add(y)),
            StandardOp::Sub => exact(x.sub(y)),
            StandardOp::Less => Ok(Value::Truth(is_less(x, y))),
            StandardOp::AtMost => Ok(Value::Truth(!is_less(y, x))),
            StandardOp::AtLeast => Ok(Value::Truth(!is_less(x, y))),
            StandardOp::Greater => Ok(Value::Truth(is_less(y, x))),
            StandardOp::Equal => Ok(Value::Truth(x == y)),
            StandardOp::Unequal => Ok(Value::Truth(!(x == y))),
            StandardOp::Min => held(if is_less(y, x) { y } else { x }),
            StandardOp::Max => held(if is_less(x, y) { y } else { x }),
            StandardOp::Mod => modulo(x, y),
            _ => Err(EvalFail::Undef),
        }
    }

    fn of_truths(self, p: bool, q: bool) -> Result<Value, EvalFail>
        ensures { result ≡ narrowed (of_truths self p q) }
    {
        match self {
            StandardOp::Equal | StandardOp::Iff => Ok(Value::Truth(p == q)),
            StandardOp::Unequal => Ok(Value::Truth(p != q)),
            _ => Err(EvalFail::Undef),
        }
    }
}

// Of two numbers: int where both are, else real.
fn joined(a: Ty, b: Ty) -> Option<Ty>
    ensures { result ≡ joined a b }
{
    match (a, b) {
        (Ty::Bool, _) | (_, Ty::Bool) => None,
        (Ty::Int, Ty::Int) => Some(Ty::Int),
        _ => Some(Ty::Real),
    }
}

fn after_and(first: Value) -> Next
    ensures { result ≡ after_and first }
{
    match first {
        Value::Truth(false) => Next::Done(Value::Truth(false)),
        _ => Next::Second,
    }
}

fn after_or(first: Value) -> Next
    ensures { result ≡ after_or first }
{
    match first {
        Value::Truth(true) => Next::Done(Value::Truth(true)),
        _ => Next::Second,
    }
}

fn after_implies(first: Value) -> Next
    ensures { result ≡ after_implies first }
{
    match first {
        Value::Truth(false) => Next::Done(Value::Truth(true)),
        _ => Next::Second,
    }
}

fn after_test(first: Value) -> Next
    ensures { result ≡ after_test first }
{
    match first {
        Value::Truth(true) => Next::Second,
        _ => Next::Third,
    }
}

// What a call of frac_core gives as a value.
fn exact(q: Result<Frac, FracFail>) -> Result<Value, EvalFail>
    ensures { result ≡ answer_of q }
{
    match q {
        Ok(x) => Ok(Value::Number(x)),
        Err(FracFail::Wide) => Err(EvalFail::Wide),
        Err(FracFail::ZeroDivisor) => Err(EvalFail::Undef),
    }
}

// A fraction that the code holds is never wide.
fn held(x: Frac) -> Result<Value, EvalFail>
    ensures { result ≡ narrowed (Some (V.Number x)) }
{
    let _num = x.num();
    Ok(Value::Number(x))
}

#[tactic(auto, using(crate::specs::StandardLaws::difference_nought))]
fn negated(x: Frac) -> Result<Value, EvalFail>
    ensures { result ≡ narrowed (of_one Neg (V.Number x)) }
{
    exact(Frac::zero().sub(x))
}

fn is_less(x: Frac, y: Frac) -> bool
    ensures { result ≡ is_less x y }
{
    matches!(x.cmp(y), Ordering::Less)
}

fn modulo(x: Frac, y: Frac) -> Result<Value, EvalFail>
    ensures { result ≡ narrowed (of_numbers Mod x y) }
{
    if !x.is_whole() || !y.is_whole() {
        return Err(EvalFail::Undef);
    }
    match x.modulo(y) {
        Some(z) => held(z),
        None => Err(EvalFail::Undef),
    }
}
