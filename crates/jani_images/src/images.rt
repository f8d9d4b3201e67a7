// The images of expressions, by this project's own rule (specs/Image.antt). PRISM's operators are those of the PRISM manual, "The
// PRISM Language", "Expressions".

ghost use Rattle.std.specs.Prelude.{◌≡◌, IfOk};
ghost use Rattle.op_trees.specs.Tree.{tree};
ghost use Rattle.jani_images.specs.Image.{image, literal, prism_op};

use bridge_io::Text;
use frac_core::Decimal;
use jani_table::JaniOp;
use jani_tree::JaniExpr;
use op_trees::{Expr, OpMap, Shape, map_ops};
use prism_images::NewNames;
use prism_tree::{PrismExpr, PrismOp};
use std::alloc::{AllocError, Global};

/// The image of an expression under new names: a negative literal is minus of its unsigned one, every operator is PRISM's of the same
/// meaning, and names become their new names. `Err` is want of memory.
pub fn image<N: NewNames>(alloc: Global, e: &JaniExpr, names: &N) -> Result<PrismExpr, AllocError>
    ensures { IfOk result (λ r. tree r ≡ image (N.new names.now) (tree e.now)) }
{
    map_ops(alloc, e, &Images { names })
}

/// Rebuilds nodes under new names.
#[derive(Drop)]
struct Images<'a, N> {
    names: &'a N,
}

impl<'a, N: NewNames> OpMap<JaniOp, PrismOp> for Images<'a, N> {
    ghost use Rattle.std.specs.Prelude.{◌≡◌, IfOk};
    ghost use Rattle.op_trees.specs.Rebuilt.{shape};
    ghost use Rattle.op_trees.specs.Tree.{tree};
    ghost use Rattle.jani_images.specs.Nodes.{image_node};

    ghost rebuilt = { λ m. image_node (N.new m.names.now) };

    fn rebuild(&self, alloc: Global, node: Shape<JaniOp, PrismOp>) -> Result<PrismExpr, AllocError>
        ensures { IfOk result (λ r. tree r ≡ image_node (N.new self.now.names.now) (shape node)) }
    {
        match node {
            Shape::Truth(at, b) => Ok(Expr::Truth(at, b)),
            Shape::Number(at, d) => literal(alloc, at, d),
            Shape::Name(at, x) => {
                let new = self.names.new_name(x.as_str());
                Ok(Expr::Name(at, Text::copy_of(alloc, new)?))
            }
            Shape::One(at, o, a) => Ok(Expr::One(at, prism_op(o), a)),
            Shape::Two(at, o, a, b) => Ok(Expr::Two(at, prism_op(o), a, b)),
            Shape::Three(at, o, a, b, c) => Ok(Expr::Three(at, prism_op(o), a, b, c)),
        }
    }
}

/// A literal; a negative one is minus its unsigned one.
fn literal(alloc: Global, at: usize, d: Decimal) -> Result<PrismExpr, AllocError>
    ensures { IfOk result (λ r. tree r ≡ literal at d) }
{
    if !d.negative {
        return Ok(Expr::Number(at, d));
    }
    let unsigned = Decimal {
        real: d.real,
        negative: false,
        exponent: d.exponent,
        digits: d.digits,
    };
    let operand = Box::new(alloc, Expr::Number(at, unsigned))?;
    Ok(Expr::One(at, PrismOp::Neg, operand))
}

/// PRISM's operator of the same meaning.
fn prism_op(o: JaniOp) -> PrismOp
    ensures { result ≡ prism_op o }
{
    match o {
        JaniOp::Ite => PrismOp::Ite,
        JaniOp::Or => PrismOp::Or,
        JaniOp::And => PrismOp::And,
        JaniOp::Not => PrismOp::Not,
        JaniOp::Equal => PrismOp::Equal,
        JaniOp::Unequal => PrismOp::Unequal,
        JaniOp::Less => PrismOp::Less,
        JaniOp::AtMost => PrismOp::AtMost,
        JaniOp::Greater => PrismOp::Greater,
        JaniOp::AtLeast => PrismOp::AtLeast,
        JaniOp::Add => PrismOp::Add,
        JaniOp::Sub => PrismOp::Sub,
        JaniOp::Mul => PrismOp::Mul,
        JaniOp::Rem => PrismOp::Mod,
        JaniOp::Div => PrismOp::Div,
        JaniOp::Floor => PrismOp::Floor,
        JaniOp::Ceil => PrismOp::Ceil,
        JaniOp::Implies => PrismOp::Implies,
        JaniOp::Min => PrismOp::Min,
        JaniOp::Max => PrismOp::Max,
    }
}
