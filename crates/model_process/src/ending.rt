//! How a state is shown, a walk ends, or a claim is judged.

use bridge_io::{List, Text};

/// How a state is shown, a walk ends, or a claim about the process is judged, on a file without fault.
#[derive(Drop)]
pub enum Ending {
    /// The state is shown, the walk came to its end, or the claim is right: this is to be written.
    Done(List<u8>),
    /// The claim is wrong: the line that says why.
    No(List<u8>),
    /// The walk came to a choice without a distribution, or to a number that there is no choice or branch for: the path so far,
    /// and the line that says so.
    Stopped(List<u8>, Text),
    /// A value or a state that the words give doesn't fit the model, or one is missing: the position of its word, from 1.
    Word(usize),
    /// The model has faults under the given constants: the lines that tell them.
    Faulty(List<u8>),
    /// A value that is needed passes the bound of fractions, or a state has too many choices or branches: the path so far, and
    /// the line that says so.
    Excess(List<u8>, Text),
}
