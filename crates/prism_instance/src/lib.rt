//! A judged PRISM file under given constants, stepped: its columns, first state, choices and marks.
//! It is a network, made once, at the start: modules are its components, actions its vectors, and expressions are kept once each. So a state
//! costs time linear in its own commands and choices.
#![tactic(auto)]

mod build;
mod constant_names;
mod constants;
mod data;
mod earnings;
mod laws;
mod model;
mod modules;
mod parts;
mod places;
mod start;
mod state_names;
mod variables;
mod vectors;

pub use laws::{described_law, one_process_law};
pub use model::{PrismInstance, PrismModel};
pub use start::{open_constants, start_prism};
