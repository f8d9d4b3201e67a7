//! The properties of PRISM properties files: their trees, their grammar and its faults.
#![tactic(auto)]

mod laws;
mod syntax;

pub use laws::alike_props_law;
pub use syntax::{Compare, PathForm, Query, Structure, Written};
