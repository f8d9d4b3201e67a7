// The code's trees, types and values.

use bridge_io::Text;
use frac_core::{Decimal, Frac};

/// What an expression may be. An int fits where a real is wanted.
#[derive(Clone, Copy, Debug, PartialEq, Eq)]
pub enum Ty {
    Bool,
    Int,
    Real,
}

/// A value: a truth value or an exact fraction.
#[derive(Clone, Copy)]
pub enum Value {
    Truth(bool),
    Number(Frac),
}

/// Why an expression has no value here: it is undefined, or a subexpression that it needs passes
/// the bound of fractions.
#[derive(Clone, Copy, Debug, PartialEq, Eq)]
pub enum EvalFail {
    Undef,
    Wide,
}

/// What an operator does after its first operand: it is done with a value, it has the value of its
/// second or third operand, or it reads all operands.
#[derive(Clone, Copy)]
pub enum Next {
    Done(Value),
    Second,
    Third,
    All,
}

/// An expression. Each node carries the byte offset of its first token or JSON value.
#[derive(Drop)]
pub enum Expr<O> {
    Truth(usize, bool),
    Number(usize, Decimal),
    Name(usize, Text),
    One(usize, O, Box<Expr<O>>),
    Two(usize, O, Box<Expr<O>>, Box<Expr<O>>),
    Three(usize, O, Box<Expr<O>>, Box<Expr<O>>, Box<Expr<O>>),
}
