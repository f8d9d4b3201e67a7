//! Expressions folded where the values of some constants are known: what names these alone, and has a value that nothing wide is needed for, becomes
//! the literal of its value. Over any set of operators, in one walk. And which constants of a model are known under given values.
#![tactic(auto)]

mod constants;
mod folding;
mod given;
mod known;
mod laws;
mod literals;
mod numbers;
mod table;

pub use constants::{AnyConst, known_under, specialised_value};
pub use folding::{fold, fold_noted, worth};
pub use given::SpecFail;
pub use known::{Constants, Fixed, Summary};
pub use laws::{folded_type_law, folding_law};
pub use literals::{Numerals, value_literal};
pub use numbers::whole_literal;
pub use table::KnownTable;
