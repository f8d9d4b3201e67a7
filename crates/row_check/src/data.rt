// The content of files of states, rows and paths, and verdicts.

ghost use Rattle.std.specs.Prelude.{◌≡◌};

use bridge_io::{Fault, List, Text};
use frac_core::Frac;
use process_core::State;
use std::alloc::AllocError;

/// A branch of a choice, as a file of rows gives it: the numbers of its source, its choice and its target, its
/// probability, and the label of its choice.
#[derive(Drop)]
pub struct Row {
    pub source: usize,
    pub choice: usize,
    pub target: usize,
    pub weight: Frac,
    pub label: Option<Text>,
}

/// The content of a file of states and a file of rows, with the counts that its first line gives.
#[derive(Drop)]
pub struct ReadRows {
    pub states: List<State>,
    pub rows: List<Row>,
    pub said_states: u64,
    pub said_choices: u64,
    pub said_transitions: u64,
}

/// The content of a file of a path: its states, and the label of the step after each but the last.
#[derive(Drop)]
pub struct ReadPath {
    pub states: List<State>,
    pub labels: List<Option<Text>>,
}

/// A step of a path: its label, if it has one, and the state that it leads to.
#[derive(Drop)]
pub struct PathStep {
    pub label: Option<Text>,
    pub state: State,
}

/// The counts on the first line of a file of rows.
#[derive(Clone, Copy)]
pub struct Counts {
    pub states: u64,
    pub choices: u64,
    pub transitions: u64,
}

/// Why there is no verdict on rows.
#[derive(Drop)]
pub enum RowsRefused {
    /// Memory was refused.
    Memory(AllocError),
    /// The file of states breaks its form.
    States(Fault),
    /// The file of rows breaks its form.
    Rows(Fault),
}

impl From<AllocError> for RowsRefused {
    ghost use Rattle.row_check.specs.declared.data.RowsRefused.TheVariants.{Memory};

    ghost from_gives = { λ e r. r ≡ Memory e };

    fn from(e: AllocError) -> RowsRefused {
        RowsRefused::Memory(e)
    }
}

/// Whether a path or rows are the model's.
#[derive(Clone, Copy)]
pub enum Verdict {
    Yes,
    /// They aren't, for this reason.
    No(Why),
    /// At the state of this number a value that is needed passes the bound of fractions.
    Wide(usize),
    /// The state of this number has more choices or branches than are given.
    TooMany(usize),
}

/// Why a path or rows aren't the model's. All numbers count from 0.
#[derive(Clone, Copy)]
pub enum Why {
    /// The first state isn't an initial one, at 0; else the model has no such step to the state of this number.
    Step(usize),
    /// The listed state of this number is no state.
    Outside(usize),
    /// The listed state of this number stood before.
    Repeated(usize),
    /// No listed state is an initial one.
    Initial,
    /// The target of the row of this number isn't listed.
    Target(usize),
    /// The state of this number has a faulty choice.
    FaultyState(usize),
    /// The choices of the state of this number aren't those of its rows.
    Choices(usize),
    /// The counts of the first line aren't right.
    Counts,
}
