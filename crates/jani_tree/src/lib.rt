//! The abstract syntax of JANI files (jani-model specification, version 1): the tree that a JSON value spells, or the least
//! fault of the value's shape; and the canonical value of a tree, and its canonical text.
#![tactic(auto)]

mod automata;
mod build;
mod copy;
mod laws;
mod objects;
mod read;
mod spell;
mod syntax;
mod write;

pub use automata::copy_automaton;
pub use copy::{copy_json, copy_name};
pub use jani_table::JaniOp;
pub use laws::{places_law, reads_back_law, written_law};
pub use read::from_json;
pub use spell::write_jani;
pub use syntax::{
    JaniAutomaton, JaniConst, JaniDestination, JaniEdge, JaniElement, JaniExpr, JaniFile, JaniKind,
    JaniLocation, JaniVar, JaniVector, JaniWrite,
};
pub use write::to_json;
