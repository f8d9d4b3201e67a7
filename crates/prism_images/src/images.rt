// The images of expressions, by the project's own rule (specs/Image.antt). JANI's operators are those of the jani-model
// specification, version 1, "Expressions".

ghost use Rattle.std.specs.Prelude.{◌≡◌, IfOk, List, ℕ};
ghost use Rattle.op_trees.specs.Tree.{tree};
ghost use Rattle.prism_images.specs.Image.{image, image_one, jani_op, nought_literal};

use bridge_io::Text;
use frac_core::Decimal;
use jani_table::JaniOp;
use jani_tree::JaniExpr;
use op_trees::{Expr, OpMap, Shape, map_ops};
use prism_tree::{PrismExpr, PrismOp};
use std::alloc::{AllocError, Global};

/// New names for old ones.
pub trait NewNames {
    /// The new name of each old one.
    ghost new: { Self → List ℕ → List ℕ };

    /// What an old name becomes.
    fn new_name<'a>(&'a self, old: &'a str) -> &'a str
        ensures { result.now ≡ new self.now old.now };
}

/// The image of an expression under new names: minus with one operand takes it from 0, `<=>` is `=`, every other operator
/// is JANI's of the same meaning, and names become their new names. `Err` is want of memory.
pub fn image<N: NewNames>(alloc: Global, e: &PrismExpr, names: &N) -> Result<JaniExpr, AllocError>
    ensures { IfOk result (λ r. tree r ≡ image (N.new names.now) (tree e.now)) }
{
    map_ops(alloc, e, &Images { names })
}

/// Rebuilds nodes under new names.
#[derive(Drop)]
struct Images<'a, N> {
    names: &'a N,
}

impl<'a, N: NewNames> OpMap<PrismOp, JaniOp> for Images<'a, N> {
    ghost use Rattle.std.specs.Prelude.{◌≡◌, IfOk};
    ghost use Rattle.op_trees.specs.Rebuilt.{shape};
    ghost use Rattle.op_trees.specs.Tree.{tree};
    ghost use Rattle.prism_images.specs.Image.{image_node};

    ghost rebuilt = { λ m. image_node (N.new m.names.now) };

    fn rebuild(&self, alloc: Global, node: Shape<PrismOp, JaniOp>) -> Result<JaniExpr, AllocError>
        ensures { IfOk result (λ r. tree r ≡ image_node (N.new self.now.names.now) (shape node)) }
    {
        match node {
            Shape::Truth(at, b) => Ok(Expr::Truth(at, b)),
            Shape::Number(at, d) => Ok(Expr::Number(at, d)),
            Shape::Name(at, x) => {
                let new = self.names.new_name(x.as_str());
                Ok(Expr::Name(at, Text::copy_of(alloc, new)?))
            }
            Shape::One(at, o, a) => one(alloc, at, o, a),
            Shape::Two(at, o, a, b) => Ok(Expr::Two(at, jani_op(o), a, b)),
            Shape::Three(at, o, a, b, c) => Ok(Expr::Three(at, jani_op(o), a, b, c)),
        }
    }
}

/// A node with one operand: minus takes it from 0.
fn one(alloc: Global, at: usize, o: PrismOp, a: Box<JaniExpr>) -> Result<JaniExpr, AllocError>
    ensures { IfOk result (λ r. tree r ≡ image_one at o (tree a.value)) }
{
    match o {
        PrismOp::Neg => {
            let nought = Box::new(alloc, Expr::Number(at, nought_literal()))?;
            Ok(Expr::Two(at, JaniOp::Sub, nought, a))
        }
        o => Ok(Expr::One(at, jani_op(o), a)),
    }
}

/// The literal 0, an int.
fn nought_literal() -> Decimal
    ensures { result ≡ nought_literal }
{
    Decimal {
        real: false,
        negative: false,
        exponent: 0,
        digits: 0,
    }
}

/// JANI's operator of the same meaning.
fn jani_op(o: PrismOp) -> JaniOp
    ensures { result ≡ jani_op o }
{
    match o {
        PrismOp::Neg | PrismOp::Sub => JaniOp::Sub,
        PrismOp::Mul => JaniOp::Mul,
        PrismOp::Div => JaniOp::Div,
        PrismOp::Add => JaniOp::Add,
        PrismOp::Less => JaniOp::Less,
        PrismOp::AtMost => JaniOp::AtMost,
        PrismOp::AtLeast => JaniOp::AtLeast,
        PrismOp::Greater => JaniOp::Greater,
        PrismOp::Equal => JaniOp::Equal,
        PrismOp::Iff => JaniOp::Equal,
        PrismOp::Unequal => JaniOp::Unequal,
        PrismOp::Not => JaniOp::Not,
        PrismOp::And => JaniOp::And,
        PrismOp::Or => JaniOp::Or,
        PrismOp::Implies => JaniOp::Implies,
        PrismOp::Ite => JaniOp::Ite,
        PrismOp::Min => JaniOp::Min,
        PrismOp::Max => JaniOp::Max,
        PrismOp::Floor => JaniOp::Floor,
        PrismOp::Ceil => JaniOp::Ceil,
        PrismOp::Mod => JaniOp::Rem,
    }
}
