//! The model that `generate` makes, of as many modules as are asked for: its text. The definition stands in `specs/`.
#![tactic(auto)]

mod laws;
mod text;

pub use laws::spelled_law;
pub use text::generated_text;
