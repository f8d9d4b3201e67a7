//! Paths carried from one model to its counterpart in the other language: each state and each label by a map that is data. A path that is
//! carried is accepted there exactly where it is accepted here.
#![tactic(auto)]

mod carry;
mod choosing;
mod data;
mod index;
mod labels;
mod lost;
mod paths;
mod states;
mod texts;

pub use carry::{carry_to_jani, carry_to_prism};
pub use data::Carried;
