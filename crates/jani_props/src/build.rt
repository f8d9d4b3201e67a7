// The expressions of properties, each built of a value without faults.
ghost use Rattle.std.specs.Prelude.{◌≡◌, Some, IfOk, IsSomeAnd, IsTrue};
ghost use Rattle.op_trees.specs.Tree.{tree};
ghost use Rattle.jani_table.specs.Node.{at_of, node};
ghost use Rattle.jani_table.specs.Faults.{op_kind};
ghost use Rattle.prop_trees.specs.JaniText.{IsExpression};
ghost use Rattle.jani_props.specs.declared.words.OpWord.TheVariants.{Operator};
ghost use Rattle.jani_props.specs.declared.table.PropForm.TheVariants as F;
ghost use Rattle.jani_props.specs.declared.table.PropKey.TheVariants as K;
ghost use Rattle.jani_props.specs.declared.table.PropKind.TheVariants as O;
ghost use Rattle.jani_props.specs.Shape.{op_word_at, part};
ghost use Rattle.jani_props.specs.Clean.{IsClean, IsCleanObject, is_known, is_needed, part_form};

use crate::access::required;
use crate::shape::op_word;
use crate::table::{PropKey, PropKind};
use crate::words::{OpWord, label_name};
use bridge_io::Text;
use decimal_json::Json;
use jani_table::{JaniOp, Key, Kind, Operands, operand_count};
use jani_tree::JaniExpr;
use op_trees::Expr;
use prop_trees::marked;
use std::alloc::{AllocError, Global};

/// The operand that is the member with this key.
#[cycle(expression)]
fn operand(alloc: Global, kind: Kind, key: Key, value: &Json) -> Result<Box<JaniExpr>, AllocError>
    requires known { IsTrue (is_known (O.Operation kind) (K.Of key)) }
    requires needed { IsTrue (is_needed (O.Operation kind) (K.Of key)) }
    requires form { part_form (O.Operation kind) (K.Of key) ≡ F.Expression }
    requires clean { IsCleanObject (O.Operation kind) (node value.now) }
    ensures { IfOk result (λ b. IsSomeAnd (part (K.Of key) (node value.now)) (λ w. IsExpression w (tree b.value))) }
{
    let part = required(PropKind::Operation(kind), PropKey::Of(key), value);
    let operand = expression(alloc, part)?;
    Ok(Box::new(alloc, operand)?)
}

/// The tree of an operator's object.
#[cycle(expression)]
fn operation(alloc: Global, at: usize, op: JaniOp, value: &Json) -> Result<JaniExpr, AllocError>
    requires offset { at_of (node value.now) ≡ at }
    requires op { op_word_at (Some (node value.now)) ≡ Operator op }
    requires clean { IsCleanObject (O.Operation (op_kind op)) (node value.now) }
    ensures { IfOk result (λ e. IsExpression (node value.now) (tree e)) }
{
    match operand_count(op) {
        Operands::One => {
            let a = operand(alloc, Kind::Unary, Key::Exp, value)?;
            Ok(Expr::One(at, op, a))
        }
        Operands::Two => {
            let a = operand(alloc, Kind::Binary, Key::Left, value)?;
            let b = operand(alloc, Kind::Binary, Key::Right, value)?;
            Ok(Expr::Two(at, op, a, b))
        }
        Operands::Three => {
            let a = operand(alloc, Kind::Choice, Key::If, value)?;
            let b = operand(alloc, Kind::Choice, Key::Then, value)?;
            let c = operand(alloc, Kind::Choice, Key::Else, value)?;
            Ok(Expr::Three(at, op, a, b, c))
        }
    }
}

/// The tree of an expression.
#[cycle(expression)]
pub(crate) fn expression(alloc: Global, value: &Json) -> Result<JaniExpr, AllocError>
    requires { IsClean F.Expression (node value.now) }
    ensures { IfOk result (λ e. IsExpression (node value.now) (tree e)) }
{
    match value {
        Json::Truth(at, b) => Ok(Expr::Truth(*at, *b)),
        Json::Number(at, d) => Ok(Expr::Number(*at, *d)),
        Json::Str(at, s) => Ok(Expr::Name(*at, marked(alloc, s.as_str())?)),
        Json::Object(at, members, _) => match op_word(members.as_slice()) {
            OpWord::Property(op) => match label_name(op) {
                Some(name) => Ok(Expr::Name(*at, Text::copy_of(alloc, name)?)),
                None => unreachable!(),
            },
            OpWord::Operator(op) => operation(alloc, *at, op, value),
            OpWord::Other => unreachable!(),
        },
        Json::Null(_) => unreachable!(),
        Json::Array(_, _) => unreachable!(),
    }
}
