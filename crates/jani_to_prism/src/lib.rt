//! JANI files translated to PRISM files that mean the same: the call, what it promises, and the code that makes the file and its
//! comment lines (`translate`). What a file is translated to is defined in prism_translation; that it has no fault and means the
//! same are the laws of prism_translation_laws.
#![tactic(auto)]

mod actions;
mod carry;
mod file;
mod gains;
mod given;
mod initial;
mod label_pairs;
mod labels;
mod laws;
mod lines;
mod map_columns;
mod named_targets;
mod naming;
mod rewards;
mod translating;
mod translation;

pub use carry::carry_map;
pub use laws::{carry_law, translated_law};
pub use prism_translation_laws::lines_law;
pub use translating::to_prism;
pub use translation::{CheckedPrismText, translate};
