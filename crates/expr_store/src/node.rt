//! The nodes of expressions.
ghost use Rattle.std.specs.Prelude.{◌≡◌, IsTrue};
ghost use Rattle.expr_store.specs.Nodes.{is_behind};

use frac_core::Decimal;
use instance_start::{Place, equal_values};
use op_trees::{Operator, Value};
use std::alloc::AllocError;

/// A node: a value that an expression without names has, a literal that passes the bound of fractions, the place of a name, or an
/// operator over nodes, each by its number.
pub enum Node<O> {
    Fixed(Value),
    Number(Decimal),
    Name(Option<Place>),
    One(O, usize),
    Two(O, usize, usize),
    Three(O, usize, usize, usize),
}

impl<O: Copy> Clone for Node<O> {
    ghost is_clone = { λ x y. y ≡ x };

    ghost is_infallible = { λ _. Unit {0} };

    fn clone(&self) -> Result<Node<O>, AllocError> {
        Ok(*self)
    }
}

impl<O: Copy> Copy for Node<O> {}

/// The number of a node.
#[derive(Clone, Copy)]
pub struct ExprId {
    pub number: usize,
}

/// Whether the operands of a node all stand before this number.
pub(crate) fn is_behind<O: Operator>(i: usize, node: &Node<O>) -> bool
    ensures { result ≡ is_behind i node.now }
{
    match node {
        Node::Fixed(_) => true,
        Node::Number(_) => true,
        Node::Name(_) => true,
        Node::One(_, a) => *a < i,
        Node::Two(_, a, b) => *a < i && *b < i,
        Node::Three(_, a, b, c) => *a < i && *b < i && *c < i,
    }
}

/// Whether two nodes are the same.
pub(crate) fn are_same<O: Operator>(x: &Node<O>, y: &Node<O>) -> bool
    ensures { IsTrue result → x.now ≡ y.now }
{
    match (x, y) {
        (Node::Fixed(v), Node::Fixed(w)) => are_same_values(*v, *w),
        (Node::Number(d), Node::Number(e)) => *d == *e,
        (Node::Name(p), Node::Name(q)) => are_same_places(*p, *q),
        (Node::One(o, a), Node::One(p, b)) => *o == *p && *a == *b,
        (Node::Two(o, a, b), Node::Two(p, c, d)) => *o == *p && *a == *c && *b == *d,
        (Node::Three(o, a, b, c), Node::Three(p, d, e, f)) => {
            *o == *p && *a == *d && *b == *e && *c == *f
        }
        _ => false,
    }
}

/// Whether two values are the same.
fn are_same_values(v: Value, w: Value) -> bool
    ensures { IsTrue result → v ≡ w }
{
    equal_values(v, w)
}

fn are_same_places(p: Option<Place>, q: Option<Place>) -> bool
    ensures { IsTrue result → p ≡ q }
{
    match (p, q) {
        (None, None) => true,
        (Some(Place::Constant(i)), Some(Place::Constant(j))) => i == j,
        (Some(Place::Variable(i)), Some(Place::Variable(j))) => i == j,
        _ => false,
    }
}
