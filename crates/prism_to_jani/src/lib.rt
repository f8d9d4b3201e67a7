//! PRISM files translated to JANI files that mean the same: the call, what it promises, and the code that makes the file of its
//! parts (`translate`), formulas and copies written out. What a file is translated to is defined in jani_translation; that it
//! has no fault and means the same are the laws of jani_translation_laws.
#![tactic(auto)]

mod carry;
mod composition;
mod laws;
mod naming;
mod syncs;
mod translating;
mod translation;

pub use carry::{carry_map, flat_carry_map};
pub use laws::{carry_law, translated_law};
pub use translating::{flat_to_jani, to_jani};
pub use translation::translate;
