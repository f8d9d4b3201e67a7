//! The JANI file that a PRISM file, its formulas and copies written out, is translated to, as a function of the trees of both,
//! and the laws of this function. The definition stands in `specs/`: `translated`. The code that makes the file is in crates
//! above.
#![tactic(auto)]

mod laws;

pub use laws::{new_names_law, one_for_one_law, seen_law, state_law, vectors_law};
