//! Worked answers of trees: what the formulas of a PRISM file come to, and what is made of them.
use crate::point::{Bodied, Point, Turned};
use bridge_io::Text;
use frac_core::Decimal;
use op_trees::*;
use prism_tree::{PrismExpr, PrismFile, PrismFormula, PrismOp};
use std::alloc::{AllocError, Global};
use std::io;

/// The laws of trees hold for these operators, names and maps.
pub(crate) fn call_laws() {
    evaluation_law::<PrismOp>();
    typing_law::<PrismOp, Point>();
    offset_law::<PrismOp>();
    substitution_law::<PrismOp>();
    formula_law::<PrismOp>();
    renaming_law::<PrismOp>();
    mapping_law::<PrismOp, PrismOp>();
}

/// Prints of each formula of a file what it comes to where x is 0, 1, 2 and 3, how many nodes it has, its type and its height, and
/// whether it is the same as the first one; then the same of its copy, of what it is with the formula y in place of the name y, and of what
/// it is turned into.
pub(crate) fn show_formulas(rt: &HostRuntime, file: &PrismFile) -> io::Result<()> {
    let formulas = file.formulas.as_slice();
    if let Some(first) = formulas.first() {
        for formula in formulas {
            show_formula(rt, &first.body, formula)?;
            show_made(rt, "  y given", given(rt.alloc(), formulas, &formula.body))?;
        }
    }
    Ok(())
}

fn show_formula(rt: &HostRuntime, first: &PrismExpr, formula: &PrismFormula) -> io::Result<()> {
    let e = &formula.body;
    show_values(rt, formula.name.name.as_str(), e)?;
    show_form(rt, first, e)?;
    show_made(rt, "  copied", copy_expr(rt.alloc(), e))?;
    show_made(rt, "  turned", map_ops(rt.alloc(), e, &Turned))
}

fn show_made(rt: &HostRuntime, what: &str, made: Result<PrismExpr, AllocError>) -> io::Result<()> {
    let e = boxed(rt.alloc(), made)?;
    show_values(rt, what, &e)
}

// A tree that was made, in a place of its own.
fn boxed(alloc: Global, made: Result<PrismExpr, AllocError>) -> Result<Box<PrismExpr>, AllocError> {
    Ok(Box::new(alloc, made?)?)
}

fn show_values(rt: &HostRuntime, what: &str, e: &PrismExpr) -> io::Result<()> {
    let [a, b, c, d] = [value(e, 0), value(e, 1), value(e, 2), value(e, 3)];
    let nodes = count(e);
    println!(rt; "{what}: {a} {b} {c} {d}, {nodes} nodes")
}

fn show_form(rt: &HostRuntime, first: &PrismExpr, e: &PrismExpr) -> io::Result<()> {
    let (height, same) = (height(e), same(e, first));
    match type_of(e, &Point { x: 0 }) {
        Ok(Ty::Bool) => println!(rt; "  bool, {height} high, the first {same}"),
        Ok(_) => println!(rt; "  number, {height} high, the first {same}"),
        Err(at) => println!(rt; "  misfit at {at}, {height} high, the first {same}"),
    }
}

fn value(e: &PrismExpr, x: i64) -> &'static str {
    match eval(e, &Point { x }) {
        Ok(Value::Truth(true)) => "true",
        Ok(Value::Truth(false)) => "false",
        Ok(Value::Number(_)) => "number",
        Err(EvalFail::Undef) => "undef",
        Err(EvalFail::Wide) => "wide",
    }
}

// What an expression is with the formula y in place of the name y.
fn given(alloc: Global, formulas: &[PrismFormula], e: &PrismExpr) -> Result<PrismExpr, AllocError> {
    for formula in formulas {
        if formula.name.name.as_str() == "y" {
            let body = &formula.body;
            return substitute(alloc, e, &Bodied { body });
        }
    }
    copy_expr(alloc, e)
}

/// A balanced tree of conjunctions of this height over comparisons.
pub(crate) fn balanced(alloc: Global, height: u32) -> Result<Box<PrismExpr>, AllocError> {
    boxed(alloc, grown(alloc, height))
}

// The same by recursion.
fn grown(alloc: Global, height: u32) -> Result<PrismExpr, AllocError> {
    if height == 0 {
        return two(alloc, 0, PrismOp::Equal, x(alloc), Ok(number(3)));
    }
    let left = grown(alloc, height - 1);
    let right = grown(alloc, height - 1);
    two(alloc, 0, PrismOp::And, left, right)
}

fn x(alloc: Global) -> Result<PrismExpr, AllocError> {
    Ok(Expr::Name(0, Text::copy_of(alloc, "x")?))
}

fn number(digits: u128) -> PrismExpr {
    let number = Decimal {
        real: false,
        negative: false,
        digits,
        exponent: 0,
    };
    Expr::Number(0, number)
}

/// Prints the value and the height of a deep tree.
pub(crate) fn show_deep(rt: &HostRuntime) -> io::Result<()> {
    let e = boxed(rt.alloc(), deep(rt.alloc()))?;
    let (value, height) = (value(&e, 0), height(&*e));
    println!(rt; "deep {value}, {height} high")
}

fn deep(alloc: Global) -> Result<PrismExpr, AllocError> {
    let mut e = Ok(Expr::Truth(0, true));
    for _ in 0..2047u32 {
        e = one(alloc, 0, PrismOp::Not, e);
    }
    e
}
