//! How a PRISM model goes with a JANI model: each state and each label by a map that is data, and when two processes are the same
//! by it.
#![tactic(auto)]

mod laws;
mod map;

pub use laws::map_laws;
pub use map::{CarryMap, Column, LabelPair};
