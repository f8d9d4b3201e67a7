//! One run of `bridge`: the words of the command line, the files that they name, the translation of a model, and the
//! texts and the status that say how it ended. The contract of `run` says that what is written denotes what was read.
//! The words are `to-jani FILE`, `to-prism FILE`, `check LANG FILE`, `show LANG FILE STATE ..`, `simulate LANG FILE ..`,
//! `check-path LANG FILE PATH ..`, `check-rows LANG FILE STATES ROWS ..`, `check-bound LANG FILE STATES ROWS LABEL BOUNDS ..`,
//! `carry-path LANG FILE PATH ..`, `specialise LANG FILE ..` and `generate N`.
#![tactic(auto)]

mod checking;
mod command;
mod generating;
mod laws;
mod on_files;
mod outcome;
mod reading;
mod to_prism;

pub use command::run;
pub use laws::{carried_law, one_ending};
pub use outcome::Outcome;
