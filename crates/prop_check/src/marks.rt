// Expressions of properties with their names as those of a model.

ghost use Rattle.std.specs.Prelude.{◌≡◌, IfOk, bytes_eq};
ghost use Rattle.op_trees.specs.Tree.{renamed, tree};
ghost use Rattle.prop_trees.specs.Names.{deadlock_name, filed_label, filed_name, initial_name, marked};

use crate::labels::label_in;
use bridge_io::Text;
use op_trees::{Expr, OpMap, Shape, map_ops};
use prism_tree::{PrismExpr, PrismOp};
use std::alloc::{AllocError, Global};

/// An expression in which each name of the model stands with a point before it. `Err` is want of memory.
pub(crate) fn marked_expression(alloc: Global, e: &PrismExpr) -> Result<PrismExpr, AllocError>
    ensures { IfOk result (λ r. tree r ≡ renamed filed_name (tree e.now)) }
{
    map_ops(alloc, e, &Marks)
}

// Marks names; all else stays.
#[derive(Drop)]
struct Marks;

impl OpMap<PrismOp, PrismOp> for Marks {
    ghost use Rattle.std.specs.Prelude.{◌≡◌, IfOk};
    ghost use Rattle.op_trees.specs.Rebuilt.{shape};
    ghost use Rattle.op_trees.specs.Tree.{tree};
    ghost use Rattle.prop_check.specs.Marks.{marked_node};

    ghost rebuilt = { λ m. marked_node };

    fn rebuild(&self, alloc: Global, node: Shape<PrismOp, PrismOp>) -> Result<PrismExpr, AllocError>
        ensures { IfOk result (λ r. tree r ≡ marked_node (shape node)) }
    {
        match node {
            Shape::Truth(at, b) => Ok(Expr::Truth(at, b)),
            Shape::Number(at, d) => Ok(Expr::Number(at, d)),
            Shape::Name(at, x) => Ok(Expr::Name(at, filed_name(alloc, x.as_str())?)),
            Shape::One(at, o, a) => Ok(Expr::One(at, o, a)),
            Shape::Two(at, o, a, b) => Ok(Expr::Two(at, o, a, b)),
            Shape::Three(at, o, a, b, c) => Ok(Expr::Three(at, o, a, b, c)),
        }
    }
}

// A name as that of a model.
fn filed_name(alloc: Global, name: &str) -> Result<Text, AllocError>
    ensures { IfOk result (λ text. text ≡ filed_name name.now) }
{
    match label_in(name) {
        Some(label) => filed_label(alloc, name, label),
        None => marked(alloc, name),
    }
}

// A name that is this label; the two that every model has stand without quotes and without a point.
fn filed_label(alloc: Global, name: &str, label: &[u8]) -> Result<Text, AllocError>
    ensures { IfOk result (λ text. text ≡ filed_label name.now label.now) }
{
    if is_initial(label) {
        return Text::copy_of(alloc, "init");
    }
    if is_deadlock(label) {
        return Text::copy_of(alloc, "deadlock");
    }
    marked(alloc, name)
}

fn is_initial(label: &[u8]) -> bool
    ensures { result ≡ bytes_eq label.now initial_name }
{
    label == "init".as_bytes()
}

fn is_deadlock(label: &[u8]) -> bool
    ensures { result ≡ bytes_eq label.now deadlock_name }
{
    label == "deadlock".as_bytes()
}

// A name with a point before it.
fn marked(alloc: Global, name: &str) -> Result<Text, AllocError>
    ensures { IfOk result (λ text. text ≡ marked name.now) }
{
    let mut text = String::new(alloc);
    text.push('.')?;
    text.push_str(name)?;
    Text::from_string(text)
}
