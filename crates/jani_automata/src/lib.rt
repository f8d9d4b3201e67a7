//! The constants, variables, initial condition, automata and monitor of the JANI file that a PRISM file is translated to, under new names, of
//! what `jani_edges` has. What they are stands in `jani_translation`; `prism_to_jani` makes the file of them.
#![tactic(auto)]

mod automata;
mod parts;

pub use automata::{file_automata, has_monitor};
pub use jani_edges::{
    Names, NewNameMap, Partners, earns_silently, has_silent, new_action, value_names, zz_silent,
};
pub use parts::{constants, global_variables, restriction};
