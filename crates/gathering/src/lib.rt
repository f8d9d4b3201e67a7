//! Lists that code gathers: one for each name, one for each number, the members that are wanted, names each once. And, for the proofs of loops that gather, in `proofs/`: what
//! one member more adds to a list, and that nothing is left at the end.
#![tactic(auto)]

mod choosing;
mod fronts;
mod name_lists;
mod number_lists;
mod single;

pub use choosing::{each_once, keep_if};
pub use fronts::{drop_from, first_of, shorter};
pub use name_lists::NameLists;
pub use number_lists::NumberLists;
pub use single::one_of;
