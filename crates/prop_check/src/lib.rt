//! PRISM properties files judged against a model: the properties of the model that they are, or their least fault.
#![tactic(auto)]

mod files;
mod filing;
mod judging;
mod labels;
mod laws;
mod marks;
mod names;
mod parts;
mod scope;
mod sizes;
mod structures;
mod types;

pub use files::read_props;
pub use laws::{one_list_of_faults, spelled_form_law};
