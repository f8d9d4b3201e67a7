//! What a PRISM file means, as definitions over the trees of files: its instances, states, choices and marks. A file is
//! written out, with no formula and no copy of a module, and means the same.
#![tactic(auto)]

mod file;
mod laws;
mod modules;
mod parts;
mod writer;

pub use file::flatten;
pub use laws::{constant_law, flat_law};
pub use writer::Writer;
