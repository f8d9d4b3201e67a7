//! Where a node is sought, so that an equal one is found. Whatever these answer, a node that is found is compared. So nothing here has a
//! contract: time and room alone rest on it.

use crate::node::Node;
use frac_core::Decimal;
use instance_start::Place;
use op_trees::{Operator, Value};

/// A bucket: equal nodes have the same one. Others have it only where they differ in no more than their operators, or the signs of
/// numbers, or in whether they are reals, so that a bucket has few nodes whatever a file says.
#[derive(Clone, Copy, PartialEq, Eq, PartialOrd, Ord)]
pub(crate) struct Bucket {
    kind: Kind,
    first: usize,
    second: usize,
    third: usize,
}

/// What a node is, apart from its operator; of a literal also the exponent.
#[derive(Clone, Copy, PartialEq, Eq, PartialOrd, Ord)]
enum Kind {
    Truth,
    Fraction,
    Literal(i32),
    Unknown,
    Constant,
    Variable,
    One,
    Two,
    Three,
}

/// The bucket of a node. No contract is needed: a node that is found in it is compared.
pub(crate) fn bucket_of<O: Operator>(node: &Node<O>) -> Bucket {
    match node {
        Node::Fixed(value) => bucket_of_value(*value),
        Node::Number(d) => bucket_of_literal(*d),
        Node::Name(place) => bucket_of_place(*place),
        Node::One(_, a) => bucket_under(Kind::One, *a, 0, 0),
        Node::Two(_, a, b) => bucket_under(Kind::Two, *a, *b, 0),
        Node::Three(_, a, b, c) => bucket_under(Kind::Three, *a, *b, *c),
    }
}

// The bucket of a value. No contract is needed: a node that is found in it is compared.
fn bucket_of_value(value: Value) -> Bucket {
    match value {
        Value::Truth(b) => bucket_under(Kind::Truth, usize::from(b), 0, 0),
        Value::Number(x) => bucket_under(
            Kind::Fraction,
            x.num().unsigned_abs() as usize,
            x.den().unsigned_abs() as usize,
            0,
        ),
    }
}

// The bucket of a number as it is written. No contract is needed: a node that is found in it is compared.
fn bucket_of_literal(d: Decimal) -> Bucket {
    let low = d.digits % (1 << 64);
    let high = d.digits / (1 << 64);
    bucket_under(Kind::Literal(d.exponent), low as usize, high as usize, 0)
}

// The bucket of a name by what it stands for. No contract is needed: a node that is found in it is compared.
fn bucket_of_place(place: Option<Place>) -> Bucket {
    match place {
        None => bucket_under(Kind::Unknown, 0, 0, 0),
        Some(Place::Constant(i)) => bucket_under(Kind::Constant, i, 0, 0),
        Some(Place::Variable(i)) => bucket_under(Kind::Variable, i, 0, 0),
    }
}

// No contract is needed: a node that is found in a bucket is compared.
fn bucket_under(kind: Kind, first: usize, second: usize, third: usize) -> Bucket {
    Bucket {
        kind,
        first,
        second,
        third,
    }
}
