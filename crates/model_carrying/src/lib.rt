//! What the words `carry-path` ask for, from the bytes of both files: a path of a model carried to the model's counterpart in the
//! other language.
#![tactic(auto)]

mod carrying;
mod ending;
mod from_jani;
mod from_prism;
mod laws;
mod starting;
mod values;

pub use carrying::carry_between;
pub use laws::{across_law, kept_law, one_carry_law};
