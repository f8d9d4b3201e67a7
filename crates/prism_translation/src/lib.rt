//! The PRISM file that a JANI file without faults is translated to, and the proof that both mean the same process. The
//! definition stands in `specs/`: `translated`, the comment `lines` before it, and `refused`, the faults of the files that
//! have no translation. It is a function of the trees of both; the code that makes the file is in a crate above.
#![tactic(auto)]

mod laws;

pub use laws::meaning_law;
