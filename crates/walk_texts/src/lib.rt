//! What is written of one state of a process and of a walk through it, for whatever can be stepped, and how such a job ends.
//! The texts and the ends are defined in `specs/`, apart from the code.
#![tactic(auto)]

mod faults;
mod jobs;
mod laws;
mod parts;
mod path;
mod report;
mod start;
mod state;

pub use faults::fault_lines;
pub use jobs::{show, simulate_given, simulate_seed};
pub use laws::report_laws;
pub use report::Report;
