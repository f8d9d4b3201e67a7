//! What the words `specialise` ask for, from the bytes of the file: a model specialised to the constants that are given.
#![tactic(auto)]

mod ending;
mod jani;
mod laws;
mod prism;
mod specialising;

pub use laws::one_specialise_law;
pub use specialising::specialise_model;
