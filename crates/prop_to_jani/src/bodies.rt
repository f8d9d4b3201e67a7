// The formulas of a model in the expressions of properties: their bodies are written out where their names are met, and the names in
// these are marked as those of the model.

ghost use Rattle.std.specs.Prelude.{◌≡◌, IfOk};
ghost use Rattle.op_trees.specs.Tree.{Name, renamed, replaced, substituted, tree};
ghost use Rattle.prism_rewriter.specs.Tables.{body_in};
ghost use Rattle.prop_trees.specs.Names.{marked};
ghost use Rattle.prop_to_jani.specs.Code.{marked_body_in};

use crate::names::model_name;
use bridge_io::Text;
use op_trees::{Expr, OpMap, Shape, map_ops};
use prism_rewriter::{BodyTable, Renaming, Rewriter};
use prism_tree::{PrismExpr, PrismOp};
use prop_trees::marked;
use std::alloc::{AllocError, Global};

/// An expression of a property with the formulas of the model written out. A formula's name has a point before it there, and so have
/// the names in its body. A body whose name is not met is not written out. `Err` is want of memory.
pub(crate) fn written(
    alloc: Global,
    e: &PrismExpr,
    bodies: &BodyTable,
) -> Result<PrismExpr, AllocError>
    ensures { IfOk result (λ r. tree r ≡ substituted (marked_body_in bodies.now) (tree e.now)) }
{
    map_ops(alloc, e, &Writing { bodies })
}

/// Replaces the names of formulas by their bodies.
#[derive(Drop)]
struct Writing<'a, 't> {
    bodies: &'a BodyTable<'t>,
}

impl<'a, 't> OpMap<PrismOp, PrismOp> for Writing<'a, 't> {
    ghost use Rattle.std.specs.Prelude.{◌≡◌, IfOk};
    ghost use Rattle.op_trees.specs.Rebuilt.{shape};
    ghost use Rattle.op_trees.specs.Tree.{tree};
    ghost use Rattle.prop_to_jani.specs.Code.{written_node};

    ghost rebuilt = { λ w. written_node w.bodies.now };

    fn rebuild(&self, alloc: Global, node: Shape<PrismOp, PrismOp>) -> Result<PrismExpr, AllocError>
        ensures { IfOk result (λ r. tree r ≡ written_node self.now.bodies.now (shape node)) }
    {
        match node {
            Shape::Truth(at, b) => Ok(Expr::Truth(at, b)),
            Shape::Number(at, d) => Ok(Expr::Number(at, d)),
            Shape::Name(at, x) => written_name(alloc, at, x.as_str(), self.bodies),
            Shape::One(at, o, a) => Ok(Expr::One(at, o, a)),
            Shape::Two(at, o, a, b) => Ok(Expr::Two(at, o, a, b)),
            Shape::Three(at, o, a, b, c) => Ok(Expr::Three(at, o, a, b, c)),
        }
    }
}

/// The body of a name in a property, or the name where it has none.
fn written_name(
    alloc: Global,
    at: usize,
    x: &str,
    bodies: &BodyTable,
) -> Result<PrismExpr, AllocError>
    ensures { IfOk result (λ r. tree r ≡ replaced (Name at x.now) (marked_body_in bodies.now x.now)) }
{
    match model_name(x) {
        Some(name) => model_body(alloc, at, name, bodies),
        None => Ok(Expr::Name(at, Text::copy_of(alloc, x)?)),
    }
}

/// The body of a name of the model, or the name where it has none, with each name marked.
fn model_body(
    alloc: Global,
    at: usize,
    x: &str,
    bodies: &BodyTable,
) -> Result<PrismExpr, AllocError>
    ensures { IfOk result (λ r. tree r ≡ renamed marked (replaced (Name at x.now) (body_in bodies.now x.now))) }
{
    let body = own_body(alloc, at, x, bodies)?;
    let new = map_ops(alloc, &body, &Marking);
    drop(body);
    new
}

/// The body of a name of the model, or the name where it has none, as it stands in the model.
fn own_body(alloc: Global, at: usize, x: &str, bodies: &BodyTable) -> Result<PrismExpr, AllocError>
    ensures { IfOk result (λ r. tree r ≡ replaced (Name at x.now) (body_in bodies.now x.now)) }
{
    let name = Expr::Name(at, Text::copy_of(alloc, x)?);
    let same = Renaming::none(alloc);
    let rewriter = Rewriter {
        bodies,
        renaming: &same,
    };
    let body = rewriter.expression(alloc, &name);
    drop(name);
    body
}

/// Puts a point before each name.
#[derive(Drop)]
struct Marking;

impl OpMap<PrismOp, PrismOp> for Marking {
    ghost use Rattle.std.specs.Prelude.{◌≡◌, IfOk};
    ghost use Rattle.op_trees.specs.Rebuilt.{shape};
    ghost use Rattle.op_trees.specs.Tree.{tree};
    ghost use Rattle.prop_to_jani.specs.Code.{marked_node};

    ghost rebuilt = { λ m. marked_node };

    fn rebuild(&self, alloc: Global, node: Shape<PrismOp, PrismOp>) -> Result<PrismExpr, AllocError>
        ensures { IfOk result (λ r. tree r ≡ marked_node (shape node)) }
    {
        match node {
            Shape::Truth(at, b) => Ok(Expr::Truth(at, b)),
            Shape::Number(at, d) => Ok(Expr::Number(at, d)),
            Shape::Name(at, x) => Ok(Expr::Name(at, marked(alloc, x.as_str())?)),
            Shape::One(at, o, a) => Ok(Expr::One(at, o, a)),
            Shape::Two(at, o, a, b) => Ok(Expr::Two(at, o, a, b)),
            Shape::Three(at, o, a, b, c) => Ok(Expr::Three(at, o, a, b, c)),
        }
    }
}
