//! Commands as edges, the one location of each automaton, the edges of the monitor, under new names; and who takes part in
//! which actions. What they are stands in `jani_translation`; `jani_automata` makes the automata of them.
#![tactic(auto)]

mod commands;
mod locations;
mod monitor;
mod new_names;
mod own_names;
mod partners;
mod rewards;
mod shares;
mod silent;
mod values;

pub use commands::edges;
pub use locations::{automaton, location_values};
pub use monitor::{action_edges, add_silent_edge};
pub use new_names::{Names, NewNameMap, new_action, value_names};
pub use own_names::{zz_monitor, zz_silent};
pub use partners::{Partners, item_actions};
pub use silent::{earns_silently, has_silent};
pub use values::{falsehood, image_if, instead_if, nought};
