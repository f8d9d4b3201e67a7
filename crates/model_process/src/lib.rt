//! What the words `show`, `simulate`, `check-path`, `check-rows` and `check-bound` ask for, from the bytes of the files: one
//! state of a model, walks through it, and claims about its process.
#![tactic(auto)]

mod ending;
mod finding;
mod judging;
mod laws;
mod lines;
mod starting;
mod walking;

pub use ending::Ending;
pub use judging::{ClaimRefused, at_file, judge_claim};
pub use laws::{certified_law, one_end_law, process_law, walk_law};
pub use lines::judged_ending;
pub use starting::{Unstarted, begun, good_front, read_flat, wide_instance, wrong_value};
pub use walking::show_or_walk;
