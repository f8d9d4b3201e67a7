//! The properties of a JANI file (jani-model specification, version 1, "Properties"): the properties of its model that its JSON value
//! spells, or the least fault of the first phase that has any: of the shape of the value, of names, of types.
#![tactic(auto)]

mod access;
mod build;
mod laws;
mod model;
mod names;
mod paths;
mod read;
mod roles;
mod shape;
mod table;
mod types;
mod words;
mod written;

pub use laws::written_law;
pub use read::read_jani_props;
pub use shape::Reading;
pub use table::{PropForm, PropKey, PropKind, PropRow};
pub use words::{Fun, OpWord, PropOp, Side};
pub use written::{Written, WrittenAsk};
