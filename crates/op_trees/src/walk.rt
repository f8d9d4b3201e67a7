// A walk through a tree that makes a new one of it and notes something of each node on the way, from the leaves up.

ghost use Rattle.std.specs.Prelude.{◌≡◌, IfOk, IsOkAnd, Ok};
ghost use Rattle.op_trees.specs.Tree.{Tree, tree};
ghost use Rattle.op_trees.specs.Walk.{Node, TruthNode, NumberNode, NameNode, OneNode, TwoNode, ThreeNode, pair, walked};
ghost use Rattle.op_trees.specs.Rebuilt.{KeepsAnswers};

use crate::operator::Operator;
use crate::tree::Expr;
use bridge_io::together;
use frac_core::Decimal;
use std::alloc::{AllocError, Global};

/// What a node becomes, and what is noted of it: a leaf as it stands, an operator's node over its folded operands with what was
/// noted of them. `Err` is want of memory.
pub trait Fold<O: Operator, Q: Operator, T: Copy> {
    ghost step: { Self → Node O (Tree Q × T) → Tree Q × T };

    fn truth(&self, alloc: Global, at: usize, b: bool) -> Result<(Expr<Q>, T), AllocError>
        ensures { IfOk result (λ r. pair r ≡ step self.now (TruthNode at b)) };

    fn number(&self, alloc: Global, at: usize, d: Decimal) -> Result<(Expr<Q>, T), AllocError>
        ensures { IfOk result (λ r. pair r ≡ step self.now (NumberNode at d)) };

    fn name(&self, alloc: Global, at: usize, x: &str) -> Result<(Expr<Q>, T), AllocError>
        ensures { IfOk result (λ r. pair r ≡ step self.now (NameNode at x.now)) };

    fn one(
        &self,
        alloc: Global,
        at: usize,
        o: O,
        a: (Box<Expr<Q>>, T),
    ) -> Result<(Expr<Q>, T), AllocError>
        ensures { IfOk result (λ r. pair r ≡ step self.now (OneNode at o (tree a.0.value, a.1))) };

    fn two(
        &self,
        alloc: Global,
        at: usize,
        o: O,
        a: (Box<Expr<Q>>, T),
        b: (Box<Expr<Q>>, T),
    ) -> Result<(Expr<Q>, T), AllocError>
        ensures { IfOk result (λ r. pair r ≡ step self.now (TwoNode at o (tree a.0.value, a.1) (tree b.0.value, b.1))) };

    fn three(
        &self,
        alloc: Global,
        at: usize,
        o: O,
        a: (Box<Expr<Q>>, T),
        b: (Box<Expr<Q>>, T),
        c: (Box<Expr<Q>>, T),
    ) -> Result<(Expr<Q>, T), AllocError>
        ensures { IfOk result (λ r. pair r ≡ step self.now (ThreeNode at o (tree a.0.value, a.1) (tree b.0.value, b.1) (tree c.0.value, c.1))) };
}

/// The tree folded from its leaves up, and what is noted of it: each node once. It keeps every answer, under corresponding
/// names, wherever each folded node does. `Err` is want of memory.
pub fn fold_ops<O: Operator, Q: Operator, T: Copy, M: Fold<O, Q, T>>(
    alloc: Global,
    e: &Expr<O>,
    map: &M,
) -> Result<(Expr<Q>, T), AllocError>
    ensures folded { IfOk result (λ r. pair r ≡ walked (M.step map.now) (tree e.now)) }
    ensures answers { IfOk result
        (λ r. KeepsAnswers O.meaning Q.meaning (λ p. p.0) (M.step map.now) (tree e.now) (tree r.0)) }
{
    folded(alloc, e, map)
}

/// The same by recursion.
fn folded<O: Operator, Q: Operator, T: Copy, M: Fold<O, Q, T>>(
    alloc: Global,
    e: &Expr<O>,
    map: &M,
) -> Result<(Expr<Q>, T), AllocError>
    ensures { IfOk result (λ r. pair r ≡ walked (M.step map.now) (tree e.now)) }
{
    match e {
        Expr::Truth(at, b) => map.truth(alloc, *at, *b),
        Expr::Number(at, d) => map.number(alloc, *at, *d),
        Expr::Name(at, x) => map.name(alloc, *at, x.as_str()),
        Expr::One(at, o, a) => fold_one(alloc, map, *at, *o, folded(alloc, a, map)),
        Expr::Two(at, o, a, b) => fold_two(
            alloc,
            map,
            *at,
            *o,
            folded(alloc, a, map),
            folded(alloc, b, map),
        ),
        Expr::Three(at, o, a, b, c) => fold_three(
            alloc,
            map,
            *at,
            *o,
            folded(alloc, a, map),
            folded(alloc, b, map),
            folded(alloc, c, map),
        ),
    }
}

/// A node folded over its folded operand.
fn fold_one<O: Operator, Q: Operator, T: Copy, M: Fold<O, Q, T>>(
    alloc: Global,
    map: &M,
    at: usize,
    o: O,
    a: Result<(Expr<Q>, T), AllocError>,
) -> Result<(Expr<Q>, T), AllocError>
    ensures { IfOk result (λ r. IsOkAnd a (λ x. pair r ≡ M.step map.now (OneNode at o (pair x)))) }
{
    map.one(alloc, at, o, boxed(alloc, a)?)
}

/// A node folded over its two folded operands.
fn fold_two<O: Operator, Q: Operator, T: Copy, M: Fold<O, Q, T>>(
    alloc: Global,
    map: &M,
    at: usize,
    o: O,
    a: Result<(Expr<Q>, T), AllocError>,
    b: Result<(Expr<Q>, T), AllocError>,
) -> Result<(Expr<Q>, T), AllocError>
    ensures { IfOk result (λ r. IsOkAnd a (λ x. IsOkAnd b
        (λ y. pair r ≡ M.step map.now (TwoNode at o (pair x) (pair y))))) }
{
    let (one, two) = together(boxed(alloc, a), boxed(alloc, b))?;
    map.two(alloc, at, o, one, two)
}

/// A node folded over its three folded operands.
fn fold_three<O: Operator, Q: Operator, T: Copy, M: Fold<O, Q, T>>(
    alloc: Global,
    map: &M,
    at: usize,
    o: O,
    a: Result<(Expr<Q>, T), AllocError>,
    b: Result<(Expr<Q>, T), AllocError>,
    c: Result<(Expr<Q>, T), AllocError>,
) -> Result<(Expr<Q>, T), AllocError>
    ensures { IfOk result (λ r. IsOkAnd a (λ x. IsOkAnd b (λ y. IsOkAnd c
        (λ z. pair r ≡ M.step map.now (ThreeNode at o (pair x) (pair y) (pair z)))))) }
{
    let both = together(boxed(alloc, a), boxed(alloc, b));
    let ((one, two), three) = together(both, boxed(alloc, c))?;
    map.three(alloc, at, o, one, two, three)
}

/// A tree that was made, in a place of its own, with what was noted of it.
fn boxed<Q: Operator, T: Copy>(
    alloc: Global,
    made: Result<(Expr<Q>, T), AllocError>,
) -> Result<(Box<Expr<Q>>, T), AllocError>
    ensures { IfOk result (λ placed. made ≡ Ok (placed.0.value, placed.1)) }
{
    let (e, note) = made?;
    Ok((Box::new(alloc, e)?, note))
}
