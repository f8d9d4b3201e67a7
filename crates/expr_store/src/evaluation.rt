//! The values of expressions in a state.
ghost use Rattle.std.specs.Prelude.{◌≡◌, IfSome, nat_eq};
ghost use Rattle.indexmap.specs.IndexMap.{get};
ghost use Rattle.state_choices.specs.Trimmed.{computed};
ghost use Rattle.instance_start.specs.Columns.{value_at};
ghost use Rattle.expr_store.specs.Kept.{IsRight, IsRight-prop};

use crate::answers::{Rest, answer_of_one, rest_of_three, rest_of_two};
use crate::node::{ExprId, Node};
use crate::store::ExprStore;
use indexmap::IndexMap;
use instance_start::value_at;
use op_trees::{EvalFail, Operator, Value, apply_both, held, literal};
use std::alloc::Global;

/// The expressions of a store in one state: what the variables and the constants are, and what was found of shared nodes so far.
pub struct Evaluation<'a, O: Operator> {
    store: &'a ExprStore<O>,
    values: &'a [Value],
    constants: &'a [Option<Value>],
    kept: IndexMap<usize, Result<Value, EvalFail>>,
    ghost right: { IsRight O.meaning store.now.nodes.items values.now constants.now (get nat_eq kept) } by { IsRight-prop O.meaning store.now.nodes.items values.now constants.now (get nat_eq kept) },
}

// Written out, so that it is proved here, and not wherever one is held.
impl<'a, O: Operator> Drop for Evaluation<'a, O> {
    fn drop(self) {
        let Evaluation {
            store: _,
            values: _,
            constants: _,
            kept,
        } = self;
        drop(kept);
    }
}

impl<'a, O: Operator> Evaluation<'a, O> {
    ghost use Rattle.expr_store.specs.Views.{IsSame, LooksIn, nodes, seen_by, seen_of};

    /// Nothing was found so far. It takes no memory.
    pub fn new(
        alloc: Global,
        store: &'a ExprStore<O>,
        values: &'a [Value],
        constants: &'a [Option<Value>],
    ) -> Evaluation<'a, O>
        ensures { LooksIn result store.now values.now constants.now }
    {
        Evaluation {
            store,
            values,
            constants,
            kept: IndexMap::new(alloc),
        }
    }

    /// The value of an expression: `Wide` exactly where something is that it needs, else `Undef` exactly where it is undefined. What
    /// is shared is evaluated once, unless memory is wanting.
    pub fn value(&mut self, id: ExprId) -> Result<Value, EvalFail>
        ensures value { result ≡ computed (seen_by self.old id) }
        ensures same { IsSame self.old self.new }
    {
        self.value_of(id.number)
    }

    /// The value of the node of a number.
    #[cycle(evaluate)]
    fn value_of(&mut self, i: usize) -> Result<Value, EvalFail>
        ensures value { result ≡ computed (seen_of self.old i) }
        ensures same { IsSame self.old self.new }
    {
        if !self.store.is_kept(i) {
            return self.value_anew(i);
        }
        match self.found(i) {
            Some(found) => found,
            None => {
                let found = self.value_anew(i);
                self.keep(i, &found);
                found
            }
        }
    }

    /// The same, where nothing is kept of it.
    #[cycle(evaluate)]
    fn value_anew(&mut self, i: usize) -> Result<Value, EvalFail>
        ensures value { result ≡ computed (seen_of self.old i) }
        ensures same { IsSame self.old self.new }
    {
        match self.store.node(i) {
            None => Err(EvalFail::Undef),
            Some(Node::Fixed(v)) => held(Some(v)),
            Some(Node::Number(d)) => literal(d),
            Some(Node::Name(place)) => held(value_at(self.values, self.constants, place)),
            Some(Node::One(o, a)) => {
                let first = self.value_of(a);
                answer_of_one(o, first)
            }
            Some(Node::Two(o, a, b)) => {
                let first = self.value_of(a);
                match rest_of_two(o, &first) {
                    Rest::Nothing(found) => found,
                    Rest::Second => self.value_of(b),
                    Rest::Third => Err(EvalFail::Undef),
                    Rest::Both => {
                        let second = self.value_of(b);
                        apply_both(o, first, second)
                    }
                }
            }
            Some(Node::Three(o, a, b, c)) => {
                let first = self.value_of(a);
                match rest_of_three(o, &first) {
                    Rest::Nothing(found) => found,
                    Rest::Second => self.value_of(b),
                    Rest::Third => self.value_of(c),
                    Rest::Both => {
                        let second = self.value_of(b);
                        apply_both(o, first, second)
                    }
                }
            }
        }
    }

    /// What was found of a node.
    fn found(&self, i: usize) -> Option<Result<Value, EvalFail>>
        ensures { IfSome result (λ r. r ≡ computed (seen_of self.now i)) }
    {
        self.kept.get(&i).copied()
    }

    /// Keeps the result of a shared node. Where memory is wanting, nothing is kept.
    fn keep(&mut self, i: usize, found: &Result<Value, EvalFail>)
        requires { found.now ≡ computed (seen_of self.old i) }
        ensures { IsSame self.old self.new }
    {
        let _kept = self.kept.insert(i, *found);
    }
}
