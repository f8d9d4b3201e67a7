//! The properties of JANI files as texts of PRISM properties files.
#![tactic(auto)]

mod laws;
mod names;
mod text;
mod translation;

pub use laws::properties_law;
pub use translation::props_to_prism;
