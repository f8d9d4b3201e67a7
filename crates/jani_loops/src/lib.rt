//! The elements of a file with their loops: an element accepts the actions of its list "input-enable" in each location, by a loop that
//! serves where none of its edges does (jani-model specification, version 1: "Composition"). An element is told as its automaton and
//! those actions, its loops are made one at a time, or all elements are made as automata with all loops, as trees of their own.
#![tactic(auto)]

mod accepting;
mod edges;
mod elements;
mod loops;

pub use accepting::ElementAutomaton;
pub use edges::{edges_by_action, edges_by_location};
pub use elements::{EVALUATED, looped};
pub use loops::loop_at;
