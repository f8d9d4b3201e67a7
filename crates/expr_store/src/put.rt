//! Expressions put into a store.
ghost use Rattle.std.specs.Prelude.{◌≡◌, ◌<◌, IfOk, IfSome, List, ℕ, Option};
ghost use Rattle.op_trees.specs.Tree.{tree, Tree, Number, One, Two, Three};
ghost use Rattle.instance_start.specs.declared.data.Place.{Place};
ghost use Rattle.expr_store.specs.Nodes.{IsGrown, IsIn, OneIs, Stands, TwoIs};
ghost use Rattle.expr_store.specs.Views.{nodes};

use crate::answers::{value_of_one, value_of_two};
use crate::node::{ExprId, Node};
use crate::store::ExprStore;
use frac_core::Decimal;
use instance_start::Place;
use op_trees::{Expr, Operator, Value, literal};
use std::alloc::AllocError;

/// Where names stand.
pub trait Scope {
    ghost places: { Self → List ℕ → Option Place };

    /// The place of a name, `None` where it stands for nothing.
    fn place(&self, name: &str) -> Option<Place>
        ensures { result ≡ places self.now name.now };
}

impl<O: Operator> ExprStore<O> {
    /// Puts an expression with all its parts; those that are found there are not added again. What stands already goes on
    /// standing, also after an `Err`, which is want of memory.
    pub fn put<S: Scope>(&mut self, e: &Expr<O>, scope: &S) -> Result<ExprId, AllocError>
        ensures grows { IsGrown (nodes self.old) (nodes self.new) }
        ensures stands { IfOk result (λ id. Stands O.meaning (S.places scope.now) (nodes self.new) id.number (tree e.now)) }
    {
        match e {
            Expr::Truth(_, b) => self.put_node(Node::Fixed(Value::Truth(*b))),
            Expr::Number(_, d) => self.put_literal(*d),
            Expr::Name(_, x) => self.put_node(Node::Name(scope.place(x.as_str()))),
            Expr::One(_, o, a) => {
                let first = self.put(a, scope);
                self.put_one(*o, first)
            }
            Expr::Two(_, o, a, b) => {
                let first = self.put(a, scope);
                let second = self.put(b, scope);
                self.put_two(*o, first, second)
            }
            Expr::Three(_, o, a, b, c) => {
                let first = self.put(a, scope);
                let second = self.put(b, scope);
                let third = self.put(c, scope);
                self.put_three(*o, first, second, third)
            }
        }
    }

    /// Puts a literal: its value, where that doesn't pass the bound of fractions.
    fn put_literal(&mut self, d: Decimal) -> Result<ExprId, AllocError>
        ensures grows { IsGrown (nodes self.old) (nodes self.new) }
        ensures stands { (places : List ℕ → Option Place) (at : ℕ) → IfOk result (λ id. Stands O.meaning places (nodes self.new) id.number (Number at d)) }
    {
        match literal(d) {
            Ok(v) => self.put_node(Node::Fixed(v)),
            Err(_) => self.put_node(Node::Number(d)),
        }
    }

    /// Puts an operator over a node; where that is a value, what it comes out as.
    fn put_one(&mut self, o: O, a: Result<ExprId, AllocError>) -> Result<ExprId, AllocError>
        requires { IfOk a (IsIn (nodes self.old)) }
        ensures grows { IsGrown (nodes self.old) (nodes self.new) }
        ensures stands { (places : List ℕ → Option Place) (at : ℕ) (t : Tree O) →
            IfOk a (λ x. Stands O.meaning places (nodes self.old) x.number t) →
            IfOk result (λ id. Stands O.meaning places (nodes self.new) id.number (One at o t)) }
    {
        let first = a?.number;
        match self.folded_one(o, first) {
            Some(v) => self.put_node(Node::Fixed(v)),
            None => self.put_node(Node::One(o, first)),
        }
    }

    /// What an operator over a node comes out as in every state, where the node is a value.
    fn folded_one(&self, o: O, a: usize) -> Option<Value>
        ensures { IfSome result (OneIs O.meaning (nodes self.now) o a) }
    {
        match self.fixed(a) {
            Some(x) => value_of_one(o, x),
            None => None,
        }
    }

    /// Puts an operator over two nodes; where these are values, what it comes out as.
    fn put_two(
        &mut self,
        o: O,
        a: Result<ExprId, AllocError>,
        b: Result<ExprId, AllocError>,
    ) -> Result<ExprId, AllocError>
        requires first { IfOk a (IsIn (nodes self.old)) }
        requires second { IfOk b (IsIn (nodes self.old)) }
        ensures grows { IsGrown (nodes self.old) (nodes self.new) }
        ensures stands { (places : List ℕ → Option Place) (at : ℕ) (t u : Tree O) →
            IfOk a (λ x. Stands O.meaning places (nodes self.old) x.number t) →
            IfOk b (λ x. Stands O.meaning places (nodes self.old) x.number u) →
            IfOk result (λ id. Stands O.meaning places (nodes self.new) id.number (Two at o t u)) }
    {
        let first = a?.number;
        let second = b?.number;
        match self.folded_two(o, first, second) {
            Some(v) => self.put_node(Node::Fixed(v)),
            None => self.put_node(Node::Two(o, first, second)),
        }
    }

    /// What an operator over two nodes comes out as in every state, where both nodes are values.
    fn folded_two(&self, o: O, a: usize, b: usize) -> Option<Value>
        ensures { IfSome result (TwoIs O.meaning (nodes self.now) o a b) }
    {
        match self.fixed(a) {
            None => None,
            Some(x) => match self.fixed(b) {
                None => None,
                Some(y) => value_of_two(o, x, y),
            },
        }
    }

    fn put_three(
        &mut self,
        o: O,
        a: Result<ExprId, AllocError>,
        b: Result<ExprId, AllocError>,
        c: Result<ExprId, AllocError>,
    ) -> Result<ExprId, AllocError>
        requires first { IfOk a (IsIn (nodes self.old)) }
        requires second { IfOk b (IsIn (nodes self.old)) }
        requires third { IfOk c (IsIn (nodes self.old)) }
        ensures grows { IsGrown (nodes self.old) (nodes self.new) }
        ensures stands { (places : List ℕ → Option Place) (at : ℕ) (t u v : Tree O) →
            IfOk a (λ x. Stands O.meaning places (nodes self.old) x.number t) →
            IfOk b (λ x. Stands O.meaning places (nodes self.old) x.number u) →
            IfOk c (λ x. Stands O.meaning places (nodes self.old) x.number v) →
            IfOk result (λ id. Stands O.meaning places (nodes self.new) id.number (Three at o t u v)) }
    {
        self.put_node(Node::Three(o, a?.number, b?.number, c?.number))
    }
}
