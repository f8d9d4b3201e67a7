//! Choices of a state of which no state that they lead to is built.
ghost use Rattle.std.specs.Prelude.{◌≡◌, IfOk};
ghost use Rattle.state_choices.specs.Open.{open_target};

use crate::branches::written;
use crate::data::Update;
use bridge_io::{List, Text};
use frac_core::Frac;
use op_trees::EvalFail;
use process_core::{Bad, State};
use std::alloc::{AllocError, Global};

/// One way that a choice may go: its probability, and the updates that say which state it leads to.
pub struct OpenBranch<'a> {
    pub weight: Frac,
    pub updates: Vec<&'a Update>,
}

// Written out, so that it is proved here, and not wherever one is held.
impl<'a> Drop for OpenBranch<'a> {
    fn drop(self) {
        let OpenBranch { weight: _, updates } = self;
        drop(updates);
    }
}

impl<'a> OpenBranch<'a> {
    /// The state that the branch leads to from this one. `Err` is want of memory.
    pub fn target(&self, alloc: Global, s: &State) -> Result<State, AllocError>
        ensures { IfOk result (λ t. t.values ≡ open_target s.now.values self.now) }
    {
        let values = written(alloc, s.values.as_slice(), self.updates.as_slice())?;
        Ok(State {
            values: List::from_vec(values),
        })
    }
}

/// What a choice leads to: a distribution, given by its branches in order, or nothing that has a meaning.
pub enum OpenOutcome<'a> {
    Good(List<OpenBranch<'a>>),
    Faulty(Bad),
}

// Written out, so that it is proved here, and not wherever one is held.
impl<'a> Drop for OpenOutcome<'a> {
    fn drop(self) {
        match self {
            OpenOutcome::Good(value) => drop(value),
            OpenOutcome::Faulty(_) => (),
        }
    }
}

/// A choice with its label, if it has one, and the reward of each structure that it earns by itself.
pub struct OpenChoice<'a> {
    pub label: Option<&'a Text>,
    pub rewards: &'a [Result<Frac, EvalFail>],
    pub outcome: OpenOutcome<'a>,
}

// Written out, so that it is proved here, and not wherever one is held.
impl<'a> Drop for OpenChoice<'a> {
    fn drop(self) {
        let OpenChoice {
            label: _,
            rewards: _,
            outcome,
        } = self;
        drop(outcome);
    }
}
