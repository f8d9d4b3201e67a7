//! Walks through a process, from choice to choice: along given numbers, or along words that a generator of random numbers
//! gives.
//! What a walk is, is defined in `specs/` over whole walks.
#![tactic(auto)]

mod drawing;
mod given;
mod laws;
mod seeded;
mod walk;

pub use given::run_given;
pub use laws::walk_laws;
pub use seeded::{run_seed, run_seeded};
pub use walk::{Step, Stop, Walk};
