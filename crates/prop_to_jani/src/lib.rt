//! The properties of a PRISM model as those of the JANI model that it is translated to: the JSON value of its "properties". Each
//! agrees with the property that it is made of.
#![tactic(auto)]

mod bodies;
mod expressions;
mod laws;
mod members;
mod names;
mod queries;
mod tables;
mod translation;

pub use laws::properties_law;
pub use translation::{flat_props_to_jani, props_to_jani};
