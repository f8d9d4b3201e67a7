//! What holds of the JANI file that a PRISM file without faults, its formulas and copies written out, is translated to: its form and
//! names, its types and the profile, and that it means the same. All of it stands in `specs/`; the functions here are its laws.
#![tactic(auto)]

mod meaning;
mod names;
mod types;

pub use meaning::{same_meaning_law, sound_at_states_law, sound_under_law};
pub use names::{circles_law, composition_law, doubled_law, form_law, unknown_law};
pub use types::{
    automata_profile_law, automata_types_law, names_law, outer_profile_law, outer_types_law,
    sound_translation_law,
};
