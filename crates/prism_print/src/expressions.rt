// The texts of expressions.

ghost use Rattle.std.specs.Prelude.{◌≡◌, ◌++◌, OnOk};
ghost use Rattle.op_trees.specs.Tree.{tree};
ghost use Rattle.prism_print.specs.Text.{operator_text, is_function, is_node, expression_text, operand_text};

use frac_core::write_number;
use op_trees::Expr;
use prism_tree::{PrismExpr, PrismOp};
use std::alloc::AllocError;

fn operator_text(op: PrismOp) -> &'static [u8]
    ensures { result.now ≡ operator_text op }
{
    match op {
        PrismOp::Neg => b"-",
        PrismOp::Mul => b"*",
        PrismOp::Div => b"/",
        PrismOp::Add => b"+",
        PrismOp::Sub => b"-",
        PrismOp::Less => b"<",
        PrismOp::AtMost => b"<=",
        PrismOp::AtLeast => b">=",
        PrismOp::Greater => b">",
        PrismOp::Equal => b"=",
        PrismOp::Unequal => b"!=",
        PrismOp::Not => b"!",
        PrismOp::And => b"&",
        PrismOp::Or => b"|",
        PrismOp::Iff => b"<=>",
        PrismOp::Implies => b"=>",
        PrismOp::Ite => b"?",
        PrismOp::Min => b"min",
        PrismOp::Max => b"max",
        PrismOp::Floor => b"floor",
        PrismOp::Ceil => b"ceil",
        PrismOp::Mod => b"mod",
    }
}

/// Whether an operator is written as a function.
fn is_function(op: PrismOp) -> bool
    ensures { result ≡ is_function op }
{
    matches!(
        op,
        PrismOp::Min | PrismOp::Max | PrismOp::Floor | PrismOp::Ceil | PrismOp::Mod
    )
}

/// Whether an expression stands in parentheses where it is an operand: an operator that isn't written as a function (PRISM manual,
/// "Expressions").
pub fn is_node(e: &PrismExpr) -> bool
    ensures { result ≡ is_node (tree e.now) }
{
    match e {
        Expr::One(_, op, _) | Expr::Two(_, op, _, _) => !is_function(*op),
        Expr::Three(_, _, _, _, _) => true,
        _ => false,
    }
}

/// Writes an expression between two texts.
#[cycle(expression)]
fn write_between(
    out: &mut Vec<u8>,
    before: &[u8],
    e: &PrismExpr,
    after: &[u8],
) -> Result<(), AllocError>
    ensures { OnOk result (out.new.items ≡ out.old.items ++ (before.now ++ (expression_text (tree e.now) ++ after.now))) }
{
    out.extend_from_slice(before)
        .and(write_expression(out, e))
        .and(out.extend_from_slice(after))
}

/// Writes an operand, in parentheses where it is an operator node.
#[cycle(expression)]
fn write_operand(out: &mut Vec<u8>, e: &PrismExpr) -> Result<(), AllocError>
    ensures { OnOk result (out.new.items ≡ out.old.items ++ operand_text (tree e.now)) }
{
    if is_node(e) {
        write_between(out, b"(", e, b")")
    } else {
        write_expression(out, e)
    }
}

/// Writes an operand behind a text.
#[cycle(expression)]
fn write_after(out: &mut Vec<u8>, before: &[u8], e: &PrismExpr) -> Result<(), AllocError>
    ensures { OnOk result (out.new.items ≡ out.old.items ++ (before.now ++ operand_text (tree e.now))) }
{
    out.extend_from_slice(before).and(write_operand(out, e))
}

/// Writes the canonical text of an expression at the end of `out` (PRISM manual, "Expressions"). An `Err` is want of memory; what
/// stands there then isn't said.
#[cycle(expression)]
pub fn write_expression(out: &mut Vec<u8>, e: &PrismExpr) -> Result<(), AllocError>
    ensures { OnOk result (out.new.items ≡ out.old.items ++ expression_text (tree e.now)) }
{
    match e {
        Expr::Truth(_, true) => out.extend_from_slice(b"true"),
        Expr::Truth(_, false) => out.extend_from_slice(b"false"),
        Expr::Number(_, number) => write_number(out, *number),
        Expr::Name(_, name) => out.extend_from_slice(name.as_str().as_bytes()),
        Expr::One(_, op, a) => {
            let sign = operator_text(*op);
            if is_function(*op) {
                out.extend_from_slice(sign)
                    .and(write_between(out, b"(", a, b")"))
            } else {
                write_after(out, sign, a)
            }
        }
        Expr::Two(_, op, a, b) => {
            let sign = operator_text(*op);
            if is_function(*op) {
                out.extend_from_slice(sign)
                    .and(write_between(out, b"(", a, b", "))
                    .and(write_between(out, b"", b, b")"))
            } else {
                write_operand(out, a)
                    .and(out.extend_from_slice(b" "))
                    .and(out.extend_from_slice(sign))
                    .and(write_after(out, b" ", b))
            }
        }
        Expr::Three(_, _, a, b, c) => write_operand(out, a)
            .and(write_after(out, b" ? ", b))
            .and(write_after(out, b" : ", c)),
    }
}
