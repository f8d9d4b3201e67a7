// What is seen of a process at a state: states, branches, choices and marks. How each is let go is written out, so that it is
// proved here, and not in each crate that holds one.

ghost use Rattle.std.specs.Prelude.{◌≡◌, IfOk, option_copied};

use bridge_io::{List, Text};
use frac_core::Frac;
use op_trees::Value;
use std::alloc::{AllocError, Global};

/// A state: a value for each column.
pub struct State {
    pub values: List<Value>,
}

impl Drop for State {
    fn drop(self) {
        let State { values } = self;
        drop(values);
    }
}

/// The same state once more.
pub fn copy_state(alloc: Global, state: &State) -> Result<State, AllocError>
    ensures { IfOk result (λ s. s ≡ state.now) }
{
    Ok(State {
        values: List::from_vec(state.values.as_slice().to_vec(alloc)?),
    })
}

/// The same label once more, where there is one. `Err` is want of memory.
pub fn copy_label(alloc: Global, label: Option<&Text>) -> Result<Option<Text>, AllocError>
    ensures { IfOk result (λ copy. copy ≡ option_copied label.entry) }
{
    match label {
        Some(text) => Ok(Some(Text::copy_of(alloc, text.as_str())?)),
        None => Ok(None),
    }
}

/// The kinds of faults that a choice has: something in it is undefined, a value is assigned outside its range, or the
/// probabilities of a participant are no distribution.
#[derive(Clone, Copy, PartialEq, Eq)]
pub struct Bad {
    pub undef: bool,
    pub range: bool,
    pub weight: bool,
}

/// One way that a choice may go: its probability, the state that it leads to, and a reward for each structure.
pub struct Branch {
    pub weight: Frac,
    pub target: State,
    pub rewards: List<Frac>,
}

impl Drop for Branch {
    fn drop(self) {
        let Branch {
            weight: _,
            target,
            rewards,
        } = self;
        drop(target);
        drop(rewards);
    }
}

/// What a choice leads to: a distribution, given by its branches in order, or nothing that has a meaning.
pub enum Outcome {
    Good(List<Branch>),
    Faulty(Bad),
}

impl Drop for Outcome {
    fn drop(self) {
        match self {
            Outcome::Good(value) => drop(value),
            Outcome::Faulty(_) => (),
        }
    }
}

/// A choice with its label, if it has one.
pub struct Choice {
    pub label: Option<Text>,
    pub outcome: Outcome,
}

impl Drop for Choice {
    fn drop(self) {
        let Choice { label, outcome } = self;
        drop(label);
        drop(outcome);
    }
}

/// A label or a reward at a state; `None` is undefined.
#[derive(Clone, Copy)]
pub enum Mark {
    Truth(Option<bool>),
    Number(Option<Frac>),
}

/// Why the choices or marks of a state aren't given.
#[derive(Drop)]
pub enum StepFail {
    /// Want of memory.
    Memory(AllocError),
    /// A value that is needed passes the bound of fractions.
    Wide,
    /// There are more choices or branches than are given of a state.
    TooMany,
}

/// What may be wrong with a model under given constants.
#[derive(Clone, Copy, PartialEq, Eq)]
pub enum FaultKind {
    /// A constant is undefined.
    ConstUndef,
    /// A bound of a variable is undefined.
    BoundUndef,
    /// The low bound of a variable is above the high one.
    EmptyRange,
    /// The first value of a variable is undefined.
    InitUndef,
    /// The first value of a variable is outside its range.
    InitOutside,
}

/// A fault, and the constant or variable that has it.
#[derive(Drop)]
pub struct InstanceFault {
    pub kind: FaultKind,
    pub name: Text,
}

/// A value for a constant that the model leaves open.
pub struct Given {
    pub name: Text,
    pub value: Value,
}

// Written out, so that it is proved here, and not wherever one is held.
impl Drop for Given {
    fn drop(self) {
        let Given { name, value } = self;
        drop(name);
        drop(value);
    }
}

/// Why a model under given constants can't be stepped.
#[derive(Drop)]
pub enum StartFail {
    /// Want of memory.
    Memory(AllocError),
    /// A value that is needed passes the bound of fractions.
    Wide,
    /// The model has these faults.
    Faults(List<InstanceFault>),
    /// The given constant of this number isn't open or has another type; or, at their count, an open one isn't given.
    Word(usize),
}

impl From<AllocError> for StepFail {
    ghost use Rattle.process_core.specs.declared.data.StepFail.TheVariants.{Memory};

    ghost from_gives = { λ e r. r ≡ Memory e };

    fn from(e: AllocError) -> StepFail {
        StepFail::Memory(e)
    }
}
