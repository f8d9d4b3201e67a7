//! Properties of PRISM files and of JANI files as trees, the faults of a properties file of PRISM against a model, and the
//! canonical text of PRISM properties.
#![tactic(auto)]

mod jani;
mod laws;
mod names;
mod prism;
mod roles;

pub use jani::{JaniAsk, JaniPath, JaniProperty};
pub use laws::text_law;
pub use names::marked;
pub use prism::{Ask, Path, Property};
pub use prop_grammar::Compare;
pub use roles::{Role, wanted_of};
