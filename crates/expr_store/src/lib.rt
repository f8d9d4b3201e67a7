//! The expressions of an instance as nodes that they share, with names resolved to places; and their values in a state.
#![tactic(auto)]

mod answers;
mod evaluation;
mod finding;
mod node;
mod put;
mod store;

pub use evaluation::Evaluation;
pub use node::{ExprId, Node};
pub use put::Scope;
pub use store::ExprStore;
