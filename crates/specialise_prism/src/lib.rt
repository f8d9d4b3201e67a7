//! PRISM models specialised to some constants: given constants get their values, and all expressions are folded. The model goes on to mean the same.
#![tactic(auto)]

mod file;
mod laws;
mod numerals;
mod parts;
mod prism;

pub use laws::{specialised_clean_law, specialised_meaning_law};
pub use prism::specialise_prism;
