// How large a tree is, where it stands, and whether two are the same.

ghost use Rattle.std.specs.Prelude.{◌≡◌, ◌↔◌, IsTrue};
ghost use Rattle.op_trees.specs.Names.{offset_of};
ghost use Rattle.op_trees.specs.Tree.{bare, capped, height_of, node_count, tree};

use crate::operator::Operator;
use crate::tree::Expr;

/// The number of nodes on the longest way down, 1 for a leaf; it stands at 2^64 - 1 where it would
/// pass that.
pub fn height<O>(e: &Expr<O>) -> u64
    ensures { result ≡ capped (height_of (tree e.now)) }
{
    match e {
        Expr::One(_, _, a) => height(a).saturating_add(1),
        Expr::Two(_, _, a, b) => height(a).max(height(b)).saturating_add(1),
        Expr::Three(_, _, a, b, c) => height(a).max(height(b)).max(height(c)).saturating_add(1),
        _ => 1,
    }
}

/// The number of nodes; it stands at 2^64 - 1 where it would pass that.
pub fn count<O>(e: &Expr<O>) -> u64
    ensures { result ≡ capped (node_count (tree e.now)) }
{
    match e {
        Expr::Truth(_, _) => 1,
        Expr::Number(_, _) => 1,
        Expr::Name(_, _) => 1,
        Expr::One(_, _, a) => count(a).saturating_add(1),
        Expr::Two(_, _, a, b) => count(a).saturating_add(count(b)).saturating_add(1),
        Expr::Three(_, _, a, b, c) => count(a)
            .saturating_add(count(b))
            .saturating_add(count(c))
            .saturating_add(1),
    }
}

/// Whether two trees are equal apart from offsets. Literals are compared as they are written, so
/// `1` and `1.0` differ.
pub fn same<O: Operator>(a: &Expr<O>, b: &Expr<O>) -> bool
    ensures { IsTrue result ↔ (bare (tree a.now) ≡ bare (tree b.now)) }
{
    match a {
        Expr::Truth(_, x) => match b {
            Expr::Truth(_, y) => *x == *y,
            _ => false,
        },
        Expr::Number(_, x) => match b {
            Expr::Number(_, y) => *x == *y,
            _ => false,
        },
        Expr::Name(_, x) => match b {
            Expr::Name(_, y) => x.as_str() == y.as_str(),
            _ => false,
        },
        Expr::One(_, o, x) => match b {
            Expr::One(_, q, y) => *o == *q && same(x, y),
            _ => false,
        },
        Expr::Two(_, o, x, z) => match b {
            Expr::Two(_, q, y, w) => *o == *q && same(x, y) && same(z, w),
            _ => false,
        },
        Expr::Three(_, o, x, z, u) => match b {
            Expr::Three(_, q, y, w, v) => *o == *q && same(x, y) && same(z, w) && same(u, v),
            _ => false,
        },
    }
}

/// Where an expression stands: the offset of its outermost node.
pub fn offset_of<O>(e: &Expr<O>) -> usize
    ensures { result ≡ offset_of (tree e.now) }
{
    match e {
        Expr::Truth(at, _) => *at,
        Expr::Number(at, _) => *at,
        Expr::Name(at, _) => *at,
        Expr::One(at, _, _) => *at,
        Expr::Two(at, _, _, _) => *at,
        Expr::Three(at, _, _, _, _) => *at,
    }
}
