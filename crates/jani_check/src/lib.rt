//! JANI files judged (jani-model specification, version 1): whether their names and types have faults and whether they have
//! forms that are left out, and which fault is the least.
#![tactic(auto)]

mod check;
mod circles;
mod clashes;
mod composition;
mod demands;
mod doubled;
mod elements;
mod given;
mod kinds;
mod laws;
mod names;
mod naming;
mod phase;
mod profile;
mod reads;
mod rewards;
mod shared;
mod starts;
mod things;
mod types;
mod typing;
mod unknown;
mod writers;
mod writes;

pub use check::{CheckedJani, check_jani};
pub use circles::declarations;
pub use elements::automata_by_name;
pub use laws::{places_law, writable_law};
pub use reads::is_label;
pub use rewards::is_reward;
pub use things::{Thing, Things, thing_type, var_thing};
pub use typing::{is_constant, is_lasting, is_transient, judge_type};
