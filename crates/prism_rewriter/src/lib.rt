//! Expressions and names of a PRISM file rewritten: the names of formulas are replaced by their bodies, other names by new
//! ones, as in a copy of a module.
#![tactic(auto)]

mod bodies;
mod renaming;
mod rewriter;

pub use bodies::{BodyTable, written_bodies};
pub use renaming::Renaming;
pub use rewriter::{Rewriter, named};
