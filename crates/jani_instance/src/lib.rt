//! A judged JANI file under given constants, stepped: its columns, first state, choices and marks.
//! What its names stand for, which edges start at each location and what belongs together is found once, at the start, so
//! that a state costs time linear in the edges at its own locations and in its choices and marks.
#![tactic(auto)]

mod acting;
mod build;
mod columns;
mod constants;
mod data;
mod edges;
mod groups;
mod initial;
mod instance;
mod laws;
mod located;
mod marks;
mod parts;
mod prepare;
mod run;
mod start;
mod transients;
mod vectors;

pub use instance::JaniInstance;
pub use laws::one_process_law;
pub use start::{open_constants, start_jani};
