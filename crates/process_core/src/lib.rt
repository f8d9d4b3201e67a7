//! What a Markov decision process is, seen one state at a time, for PRISM and JANI alike: states, choices and marks,
//! the trait of whatever can be stepped, equality, counts and merging.
//! How choices come about, what instances are, and when two processes are the same, is defined in `specs/` over plain data.
#![tactic(auto)]

mod data;
mod equality;
mod laws;
mod merging;
mod steps;

pub use data::{
    Bad, Branch, Choice, FaultKind, Given, InstanceFault, Mark, Outcome, StartFail, State,
    StepFail, copy_label, copy_state,
};
pub use equality::{same_choice, same_label, same_state, times};
pub use laws::{
    combination_laws, distribution_laws, equality_laws, following_law, idle_laws, merging_laws,
    often_laws, product_laws,
};
pub use merging::{key_of, merged};
pub use steps::{InitialWide, Steps};
