//! The targets of a JANI file, for each of which its translation to PRISM has an action: what they are made for, which edges
//! serve them and which elements block them. The rule is this project's own.
#![tactic(auto)]

mod crowds;
mod making;
mod participants;
mod refused;
mod rows;
mod served;
mod targets;

pub use edge_tables::Places;
pub use making::serving;
pub use refused::least_refused;
pub use served::{EdgeServing, ElementServing, Serving};
pub use targets::{Maker, Target};
