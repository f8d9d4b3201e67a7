//! What holds of the PRISM file that a JANI file without faults is translated to: its form and names, its types, and that it means
//! the same. All of it stands in `specs/`; the functions here are its laws.
#![tactic(auto)]

mod meaning;
mod names;
mod types;

pub use meaning::{rewards_law, same_meaning_law, sound_law};
pub use names::{circles_law, doubled_law, form_law, lines_law, names_law, unknown_law};
pub use types::{expressions_law, modules_law, outer_law, sound_types_law, typed_names_law};
