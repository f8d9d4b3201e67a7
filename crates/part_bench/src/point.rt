// Names, bodies and a change of operators for the worked answers of trees.

ghost use Rattle.std.specs.Prelude.{◌≡◌};
ghost use Rattle.part_bench.specs.Point.{number_at, turned};

use bridge_io::Text;
use frac_core::Frac;
use op_trees::{Bodies, Expr, Names, OpMap, Shape, Ty, Value};
use prism_tree::{PrismExpr, PrismOp};
use std::alloc::{AllocError, Global};

/// All names are ints, and `x` alone has a value.
#[derive(Clone, Copy)]
pub struct Point {
    pub x: i64,
}

impl Names for Point {
    ghost use Rattle.part_bench.specs.Point.{point_types, point_values};
    ghost use Rattle.part_bench.specs.PointLaws.{point_typed};

    ghost values = { λ p. point_values p.x };

    ghost types = { λ p. point_types };

    ghost typed = { λ p x. point_typed p.x x };

    fn value(&self, name: &str) -> Option<Value> {
        if name == "x" { number(self.x) } else { None }
    }

    fn ty(&self, _name: &str) -> Option<Ty> {
        Some(Ty::Int)
    }
}

fn number(x: i64) -> Option<Value>
    ensures { result ≡ number_at x }
{
    match Frac::new(x, 1) {
        Ok(q) => Some(Value::Number(q)),
        Err(_) => None,
    }
}

/// The name `y` has a body.
#[derive(Clone, Copy)]
pub struct Bodied<'a> {
    pub body: &'a PrismExpr,
}

impl<'a> Bodies<PrismOp> for Bodied<'a> {
    ghost use Rattle.part_bench.specs.Point.{body_of};
    ghost use Rattle.op_trees.specs.Tree.{tree};

    ghost bodies = { λ b. body_of (tree b.body.now) };

    fn body(&self, name: &str) -> Option<&PrismExpr> {
        if name == "y" { Some(self.body) } else { None }
    }
}

/// Every name becomes `y`, and greater becomes equal.
#[derive(Clone, Copy)]
pub struct Turned;

impl OpMap<PrismOp, PrismOp> for Turned {
    ghost use Rattle.std.specs.Prelude.{◌≡◌, IfOk};
    ghost use Rattle.part_bench.specs.Point.{turned_node};
    ghost use Rattle.op_trees.specs.Rebuilt.{shape};
    ghost use Rattle.op_trees.specs.Tree.{tree};

    ghost rebuilt = { λ m. turned_node };

    fn rebuild(&self, alloc: Global, node: Shape<PrismOp, PrismOp>) -> Result<PrismExpr, AllocError>
        ensures { IfOk result (λ r. tree r ≡ turned_node (shape node)) }
    {
        match node {
            Shape::Truth(at, b) => Ok(Expr::Truth(at, b)),
            Shape::Number(at, d) => Ok(Expr::Number(at, d)),
            Shape::Name(at, _) => Ok(Expr::Name(at, Text::copy_of(alloc, "y")?)),
            Shape::One(at, o, a) => Ok(Expr::One(at, turn(o), a)),
            Shape::Two(at, o, a, b) => Ok(Expr::Two(at, turn(o), a, b)),
            Shape::Three(at, o, a, b, c) => Ok(Expr::Three(at, turn(o), a, b, c)),
        }
    }
}

fn turn(o: PrismOp) -> PrismOp
    ensures { result ≡ turned o }
{
    match o {
        PrismOp::Greater => PrismOp::Equal,
        o => o,
    }
}
