//! Model files from their bytes: a PRISM or a JANI file without fault, or its least fault.
#![tactic(auto)]

mod laws;
mod read;
mod reading;

pub use laws::{jani_again_law, one_reading_law, prism_again_law};
pub use read::ReadModel;
pub use reading::{read_jani, read_prism};
