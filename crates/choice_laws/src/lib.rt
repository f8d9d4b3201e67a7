//! Laws of the choices of a model that a translation in either direction may rest on, over the plain data of `process_core`
//! alone: products of which one list is split, false guards that drop out, rewards of a combination, columns in another order.
//! The laws stand in `specs/`, the lemmas that crates above cite in `proofs/`.
#![tactic(auto)]

mod laws;

pub use laws::{column_laws, reward_laws, split_laws};
