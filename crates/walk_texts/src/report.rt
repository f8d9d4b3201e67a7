// How a job ends.

use bridge_io::{List, Text};

/// How a job that shows a state or walks ends.
#[derive(Drop)]
pub enum Report {
    /// What is to be written, all of it.
    Done(List<u8>),
    /// The path so far, and the line on why it goes no further.
    Stopped(List<u8>, Text),
    /// The word is no state of the process, or no initial one where a walk starts; or none was named and the process has
    /// no first state.
    NoStart,
    /// Something passes a bound: the path so far, and the line on it.
    Excess(List<u8>, Text),
}
