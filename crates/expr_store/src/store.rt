//! The expressions of an instance, as nodes.
ghost use Rattle.std.specs.Prelude.{◌≡◌, ◌⊎◌, ◌<◌, ◌++◌, ◌∷◌, [], IfOk, IfSome, IsTrue, length, true};
ghost use Rattle.expr_store.specs.Nodes.{Holds, IsGrown, is_behind, node_at};
ghost use Rattle.expr_store.specs.Views.{nodes};
ghost use Rattle.expr_store.specs.declared.node.Node.TheVariants.{Fixed};

use crate::finding::{Bucket, bucket_of};
use crate::node::{ExprId, Node, are_same, is_behind};
use op_trees::{Operator, Value};
use std::alloc::{AllocError, Global};
use std::collections::BTreeMap;

/// Expressions as nodes, each of which stands behind its operands; one that is equal to one that is found isn't added. Names are
/// resolved to places.
pub struct ExprStore<O: Operator> {
    nodes: Vec<Node<O>>,
    notes: Vec<Note>,
    newest: BTreeMap<Bucket, usize>,
}

// Written out, so that it is proved here, and not wherever one is held.
impl<O: Operator> Drop for ExprStore<O> {
    fn drop(self) {
        let ExprStore {
            nodes,
            notes,
            newest,
        } = self;
        drop(nodes);
        drop(notes);
        drop(newest);
    }
}

/// What is noted of a node: the one of its bucket that was put before it, whether an equal one was put again, and how many nodes
/// its value is made of, not counting what is evaluated once for all that share it.
#[derive(Clone, Copy)]
struct Note {
    older: Option<usize>,
    is_shared: bool,
    cost: usize,
}

// Results of shared nodes that are made of so many others are kept while a state is evaluated; those of fewer are found sooner anew.
const KEPT_FROM: usize = 8;

impl<O: Operator> ExprStore<O> {
    /// No expressions. It takes no memory.
    pub fn new(alloc: Global) -> ExprStore<O>
        ensures { nodes result ≡ [] }
    {
        ExprStore {
            nodes: Vec::new(alloc),
            notes: Vec::new(alloc),
            newest: BTreeMap::new(alloc),
        }
    }

    /// The node of this number, where its operands stand before it.
    pub(crate) fn node(&self, i: usize) -> Option<Node<O>>
        ensures { result ≡ node_at (nodes self.now) i }
    {
        match self.nodes.as_slice().get(i) {
            None => None,
            Some(node) => {
                if is_behind(i, node) {
                    Some(*node)
                } else {
                    None
                }
            }
        }
    }

    /// The value of a node that is one.
    pub(crate) fn fixed(&self, i: usize) -> Option<Value>
        ensures { IfSome result (λ v. Holds (nodes self.now) i (Fixed v)) }
    {
        match self.node(i) {
            Some(Node::Fixed(v)) => Some(v),
            _ => None,
        }
    }

    /// Whether the result of a node is to be kept while a state is evaluated. No contract is needed: kept or not, it is the same result.
    pub(crate) fn is_kept(&self, i: usize) -> bool {
        match self.notes.as_slice().get(i) {
            None => false,
            Some(note) => note.is_shared && KEPT_FROM <= note.cost,
        }
    }

    /// Puts a node: adds it last, unless an equal one is found. `Err` is want of memory.
    pub(crate) fn put_node(&mut self, node: Node<O>) -> Result<ExprId, AllocError>
        requires { is_behind (length (nodes self.old)) node ≡ true }
        ensures grows { IsGrown (nodes self.old) (nodes self.new) }
        ensures holds { IfOk result (λ id. Holds (nodes self.new) id.number node) }
        ensures added { IfOk result (λ id. (nodes self.new ≡ nodes self.old) ⊎ (nodes self.new ≡ nodes self.old ++ node ∷ [])) }
    {
        let bucket = bucket_of(&node);
        let newest = self.newest.get(&bucket).copied();
        match self.equal_from(&node, newest) {
            Some(i) => {
                self.share(i);
                Ok(ExprId { number: i })
            }
            None => self.push(node, bucket, newest),
        }
    }

    /// The number of an equal node, sought in a bucket from one node on.
    fn equal_from(&self, node: &Node<O>, newest: Option<usize>) -> Option<usize>
        ensures { IfSome result (λ i. Holds (nodes self.now) i node.now) }
    {
        let mut next = newest;
        while let Some(i) = next {
            if self.has(i, node) {
                return Some(i);
            }
            next = self.older(i);
        }
        None
    }

    /// Whether an equal node has this number.
    fn has(&self, i: usize, node: &Node<O>) -> bool
        ensures { IsTrue result → Holds (nodes self.now) i node.now }
    {
        match self.node(i) {
            None => false,
            Some(found) => are_same(&found, node),
        }
    }

    /// The node of the same bucket that was put before this one.
    fn older(&self, i: usize) -> Option<usize>
        ensures { IfSome result (λ j. j < i) }
    {
        match self.notes.as_slice().get(i) {
            None => None,
            Some(note) => match note.older {
                None => None,
                Some(j) => { if j < i { Some(j) } else { None } }
            },
        }
    }

    /// Notes that an equal node was put again.
    fn share(&mut self, i: usize)
        ensures { nodes self.new ≡ nodes self.old }
    {
        if i < self.notes.len() {
            self.notes[i].is_shared = true;
        }
    }

    /// Adds a node last. `Err` is want of memory.
    fn push(
        &mut self,
        node: Node<O>,
        bucket: Bucket,
        older: Option<usize>,
    ) -> Result<ExprId, AllocError>
        requires { is_behind (length (nodes self.old)) node ≡ true }
        ensures grows { IsGrown (nodes self.old) (nodes self.new) }
        ensures holds { IfOk result (λ id. Holds (nodes self.new) id.number node) }
        ensures added { IfOk result (λ id. nodes self.new ≡ nodes self.old ++ node ∷ []) }
    {
        let number = self.nodes.len();
        let cost = self.cost(&node);
        let noted = self.note(bucket, number, older, cost);
        let pushed = self.nodes.push(node);
        match noted {
            Ok(()) => {
                pushed?;
                Ok(ExprId { number })
            }
            Err(e) => Err(e),
        }
    }

    /// Notes of a new node where it is found.
    fn note(
        &mut self,
        bucket: Bucket,
        number: usize,
        older: Option<usize>,
        cost: usize,
    ) -> Result<(), AllocError>
        ensures { nodes self.new ≡ nodes self.old }
    {
        self.notes.push(Note {
            older,
            is_shared: false,
            cost,
        })?;
        match self.newest.insert(bucket, number) {
            Ok(_) => Ok(()),
            Err(_) => Err(AllocError),
        }
    }

    /// How many nodes are evaluated for the value of a node. No contract is needed: only which results are kept rests on it, and so time.
    fn cost(&self, node: &Node<O>) -> usize {
        match node {
            Node::One(_, a) => self.cost_of(*a).saturating_add(1),
            Node::Two(_, a, b) => self
                .cost_of(*a)
                .saturating_add(self.cost_of(*b))
                .saturating_add(1),
            Node::Three(_, a, b, c) => self
                .cost_of(*a)
                .saturating_add(self.cost_of(*b))
                .saturating_add(self.cost_of(*c))
                .saturating_add(1),
            _ => 1,
        }
    }

    // The same of the node of this number, where it is an operand. No contract is needed: only time rests on it.
    fn cost_of(&self, i: usize) -> usize {
        if self.is_kept(i) {
            return 1;
        }
        match self.notes.as_slice().get(i) {
            None => 1,
            Some(note) => note.cost,
        }
    }
}
