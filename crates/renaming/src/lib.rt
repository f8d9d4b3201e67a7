//! Names that go over one to one: what holds of the new names of all that asks for one, as `name_table` makes them. The definition stands
//! in `specs/`; the function here is its law.
#![tactic(auto)]

mod laws;

pub use laws::one_to_one_law;
