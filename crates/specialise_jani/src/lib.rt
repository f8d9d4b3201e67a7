//! JANI models specialised to some constants: given constants get their values, and all expressions are folded. The model goes on to mean the same.
#![tactic(auto)]

mod copy;
mod file;
mod jani;
mod laws;
mod numerals;
mod parts;

pub use jani::specialise_jani;
pub use laws::{specialised_clean_law, specialised_meaning_law};
