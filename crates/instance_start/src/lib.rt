//! What starting a model under given constants takes, in whichever language it is: which given constants fit, which values
//! the variables may have, which faults an instance has, and its columns.
#![tactic(auto)]

mod answers;
mod data;
mod faults;
mod given;
mod ranges;
mod start;
mod values;

pub use answers::{is_false, is_wide, truth_in};
pub use data::{Bounds, Column, Constant, Domain, First, Place, Variable};
pub use given::{given_values, misfit};
pub use ranges::{domain_at, equal_values, first_values, fits_in, is_in, is_state, may_begin};
pub use start::columns;
pub use values::{type_of, value_at};
