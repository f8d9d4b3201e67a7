// New trees made of old ones: copies, substitution, and a change of operators and names.

ghost use Rattle.std.specs.Prelude.{◌≡◌, IfOk, IsOkAnd, List, Ok, Option, ℕ};
ghost use Rattle.std.specs.Option.{option_copied, option_map};
ghost use Rattle.op_trees.specs.Tree.{Tree, Name, One, Two, Three, replaced, substituted, tree};
ghost use Rattle.op_trees.specs.Seen.{SeesBodies};
ghost use Rattle.op_trees.specs.Walk.{Node, pair, walked};
ghost use Rattle.op_trees.specs.Rebuilt.{KeepsAnswers, shape};

use crate::operator::Operator;
use crate::tree::Expr;
use crate::walk::{Fold, fold_ops};
use bridge_io::{Text, together};
use frac_core::Decimal;
use std::alloc::{AllocError, Global};

/// Trees that stand for names.
pub trait Bodies<O: Operator> {
    ghost bodies: { Self → List ℕ → Option (Tree O) };

    /// The body of a name, `None` where it has none.
    fn body(&self, name: &str) -> Option<&Expr<O>>
        ensures { option_map tree (option_copied result) ≡ bodies self.now name.now };
}

/// One node, over operands that are rebuilt.
#[derive(Drop)]
pub enum Shape<O, Q> {
    Truth(usize, bool),
    Number(usize, Decimal),
    Name(usize, Text),
    One(usize, O, Box<Expr<Q>>),
    Two(usize, O, Box<Expr<Q>>, Box<Expr<Q>>),
    Three(usize, O, Box<Expr<Q>>, Box<Expr<Q>>, Box<Expr<Q>>),
}

/// A change of operators and names.
pub trait OpMap<O: Operator, Q: Operator> {
    ghost rebuilt: { Self → Node O (Tree Q) → Tree Q };

    /// Rebuilds one node over rebuilt operands, and renames names. `Err` is want of memory.
    fn rebuild(&self, alloc: Global, node: Shape<O, Q>) -> Result<Expr<Q>, AllocError>
        ensures { IfOk result (λ r. tree r ≡ rebuilt self.now (shape node)) };
}

/// An equal tree, offsets too. `Err` is want of memory.
pub fn copy_expr<O: Operator>(alloc: Global, e: &Expr<O>) -> Result<Expr<O>, AllocError>
    ensures { IfOk result (λ r. tree r ≡ tree e.now) }
{
    match e {
        Expr::Truth(at, b) => Ok(Expr::Truth(*at, *b)),
        Expr::Number(at, d) => Ok(Expr::Number(*at, *d)),
        Expr::Name(at, x) => name(alloc, *at, x.as_str()),
        Expr::One(at, o, a) => one(alloc, *at, *o, copy_expr(alloc, a)),
        Expr::Two(at, o, a, b) => two(alloc, *at, *o, copy_expr(alloc, a), copy_expr(alloc, b)),
        Expr::Three(at, o, a, b, c) => three(
            alloc,
            *at,
            *o,
            copy_expr(alloc, a),
            copy_expr(alloc, b),
            copy_expr(alloc, c),
        ),
    }
}

/// The tree in which each name with a body is replaced by that body, once: what stands in a body
/// stays. It keeps every answer wherever each replaced name answers as its body. `Err` is want of
/// memory.
pub fn substitute<O: Operator, B: Bodies<O>>(
    alloc: Global,
    e: &Expr<O>,
    bodies: &B,
) -> Result<Expr<O>, AllocError>
    ensures tree { IfOk result (λ r. tree r ≡ substituted (B.bodies bodies.now) (tree e.now)) }
    ensures answers { IfOk result
        (λ r. SeesBodies O.meaning (B.bodies bodies.now) (tree e.now) (tree r)) }
{
    with_bodies(alloc, e, bodies)
}

/// The same by recursion.
fn with_bodies<O: Operator, B: Bodies<O>>(
    alloc: Global,
    e: &Expr<O>,
    bodies: &B,
) -> Result<Expr<O>, AllocError>
    ensures { IfOk result (λ r. tree r ≡ substituted (B.bodies bodies.now) (tree e.now)) }
{
    match e {
        Expr::Truth(at, b) => Ok(Expr::Truth(*at, *b)),
        Expr::Number(at, d) => Ok(Expr::Number(*at, *d)),
        Expr::Name(at, x) => body_or_name(alloc, *at, x.as_str(), bodies),
        Expr::One(at, o, a) => one(alloc, *at, *o, with_bodies(alloc, a, bodies)),
        Expr::Two(at, o, a, b) => two(
            alloc,
            *at,
            *o,
            with_bodies(alloc, a, bodies),
            with_bodies(alloc, b, bodies),
        ),
        Expr::Three(at, o, a, b, c) => three(
            alloc,
            *at,
            *o,
            with_bodies(alloc, a, bodies),
            with_bodies(alloc, b, bodies),
            with_bodies(alloc, c, bodies),
        ),
    }
}

/// The body of a name, or the name where it has none.
fn body_or_name<O: Operator, B: Bodies<O>>(
    alloc: Global,
    at: usize,
    x: &str,
    bodies: &B,
) -> Result<Expr<O>, AllocError>
    ensures { IfOk result (λ r. tree r ≡ replaced (Name at x.now) (B.bodies bodies.now x.now)) }
{
    match bodies.body(x) {
        Some(b) => copy_expr(alloc, b),
        None => name(alloc, at, x),
    }
}

/// A node that is a name, which is copied.
fn name<O: Operator>(alloc: Global, at: usize, x: &str) -> Result<Expr<O>, AllocError>
    ensures { IfOk result (λ r. tree r ≡ Name at x.now) }
{
    Ok(Expr::Name(at, Text::copy_of(alloc, x)?))
}

/// A node over one operand that was made.
pub fn one<O: Operator>(
    alloc: Global,
    at: usize,
    o: O,
    a: Result<Expr<O>, AllocError>,
) -> Result<Expr<O>, AllocError>
    ensures { IfOk result (λ r. IsOkAnd a (λ x. tree r ≡ One at o (tree x))) }
{
    Ok(Expr::One(at, o, boxed(alloc, a)?))
}

/// A node over two operands that were made.
pub fn two<O: Operator>(
    alloc: Global,
    at: usize,
    o: O,
    a: Result<Expr<O>, AllocError>,
    b: Result<Expr<O>, AllocError>,
) -> Result<Expr<O>, AllocError>
    ensures { IfOk result
        (λ r. IsOkAnd a (λ x. IsOkAnd b (λ y. tree r ≡ Two at o (tree x) (tree y)))) }
{
    let (first, second) = together(boxed(alloc, a), boxed(alloc, b))?;
    Ok(Expr::Two(at, o, first, second))
}

/// A node over three operands that were made.
pub fn three<O: Operator>(
    alloc: Global,
    at: usize,
    o: O,
    a: Result<Expr<O>, AllocError>,
    b: Result<Expr<O>, AllocError>,
    c: Result<Expr<O>, AllocError>,
) -> Result<Expr<O>, AllocError>
    ensures { IfOk result (λ r. IsOkAnd a (λ x. IsOkAnd b
        (λ y. IsOkAnd c (λ z. tree r ≡ Three at o (tree x) (tree y) (tree z))))) }
{
    let pair = together(boxed(alloc, a), boxed(alloc, b));
    let ((first, second), third) = together(pair, boxed(alloc, c))?;
    Ok(Expr::Three(at, o, first, second, third))
}

/// A tree that was made, in a place of its own.
fn boxed<O: Operator>(
    alloc: Global,
    made: Result<Expr<O>, AllocError>,
) -> Result<Box<Expr<O>>, AllocError>
    ensures { IfOk result (λ place. made ≡ Ok place.value) }
{
    Ok(Box::new(alloc, made?)?)
}

/// The tree in which each node is rebuilt over its rebuilt operands. It keeps every answer, under
/// corresponding names, wherever each rebuilt node does. `Err` is want of memory.
pub fn map_ops<O: Operator, Q: Operator, M: OpMap<O, Q>>(
    alloc: Global,
    e: &Expr<O>,
    map: &M,
) -> Result<Expr<Q>, AllocError>
    ensures tree { IfOk result (λ r. tree r ≡ walked (M.rebuilt map.now) (tree e.now)) }
    ensures answers { IfOk result
        (λ r. KeepsAnswers O.meaning Q.meaning (λ t. t) (M.rebuilt map.now) (tree e.now) (tree r)) }
{
    rebuilt(alloc, e, map)
}

/// The same as a walk on which nothing is noted.
fn rebuilt<O: Operator, Q: Operator, M: OpMap<O, Q>>(
    alloc: Global,
    e: &Expr<O>,
    map: &M,
) -> Result<Expr<Q>, AllocError>
    ensures { IfOk result (λ r. tree r ≡ walked (M.rebuilt map.now) (tree e.now)) }
{
    let (new, ()) = fold_ops(alloc, e, &Rebuilding { map })?;
    Ok(new)
}

/// Rebuilds nodes, and notes nothing.
#[derive(Drop)]
struct Rebuilding<'a, M> {
    map: &'a M,
}

impl<'a, O: Operator, Q: Operator, M: OpMap<O, Q>> Fold<O, Q, ()> for Rebuilding<'a, M> {
    ghost use Rattle.std.specs.Prelude.{◌≡◌, IfOk};
    ghost use Rattle.op_trees.specs.Tree.{tree};
    ghost use Rattle.op_trees.specs.Walk.{TruthNode, NumberNode, NameNode, OneNode, TwoNode, ThreeNode, pair};
    ghost use Rattle.op_trees.specs.Rebuilt.{noting};

    ghost step = { λ r. noting (M.rebuilt r.map.now) };

    fn truth(&self, alloc: Global, at: usize, b: bool) -> Result<(Expr<Q>, ()), AllocError>
        ensures { IfOk result (λ r. pair r ≡ noting (M.rebuilt self.now.map.now) (TruthNode at b)) }
    {
        unnoted(self.map.rebuild(alloc, Shape::Truth(at, b)))
    }

    fn number(&self, alloc: Global, at: usize, d: Decimal) -> Result<(Expr<Q>, ()), AllocError>
        ensures { IfOk result (λ r. pair r ≡ noting (M.rebuilt self.now.map.now) (NumberNode at d)) }
    {
        unnoted(self.map.rebuild(alloc, Shape::Number(at, d)))
    }

    fn name(&self, alloc: Global, at: usize, x: &str) -> Result<(Expr<Q>, ()), AllocError>
        ensures { IfOk result (λ r. pair r ≡ noting (M.rebuilt self.now.map.now) (NameNode at x.now)) }
    {
        let name = Text::copy_of(alloc, x)?;
        unnoted(self.map.rebuild(alloc, Shape::Name(at, name)))
    }

    fn one(
        &self,
        alloc: Global,
        at: usize,
        o: O,
        a: (Box<Expr<Q>>, ()),
    ) -> Result<(Expr<Q>, ()), AllocError>
        ensures { IfOk result (λ r. pair r ≡ noting (M.rebuilt self.now.map.now) (OneNode at o (tree a.0.value, a.1))) }
    {
        unnoted(self.map.rebuild(alloc, Shape::One(at, o, a.0)))
    }

    fn two(
        &self,
        alloc: Global,
        at: usize,
        o: O,
        a: (Box<Expr<Q>>, ()),
        b: (Box<Expr<Q>>, ()),
    ) -> Result<(Expr<Q>, ()), AllocError>
        ensures { IfOk result (λ r. pair r ≡ noting (M.rebuilt self.now.map.now)
            (TwoNode at o (tree a.0.value, a.1) (tree b.0.value, b.1))) }
    {
        unnoted(self.map.rebuild(alloc, Shape::Two(at, o, a.0, b.0)))
    }

    fn three(
        &self,
        alloc: Global,
        at: usize,
        o: O,
        a: (Box<Expr<Q>>, ()),
        b: (Box<Expr<Q>>, ()),
        c: (Box<Expr<Q>>, ()),
    ) -> Result<(Expr<Q>, ()), AllocError>
        ensures { IfOk result (λ r. pair r ≡ noting (M.rebuilt self.now.map.now)
            (ThreeNode at o (tree a.0.value, a.1) (tree b.0.value, b.1) (tree c.0.value, c.1))) }
    {
        unnoted(self.map.rebuild(alloc, Shape::Three(at, o, a.0, b.0, c.0)))
    }
}

/// What was rebuilt, with nothing noted of it.
fn unnoted<Q: Operator>(made: Result<Expr<Q>, AllocError>) -> Result<(Expr<Q>, ()), AllocError>
    ensures { IfOk result (λ r. IsOkAnd made (λ e. pair r ≡ (tree e, tt))) }
{
    Ok((made?, ()))
}
