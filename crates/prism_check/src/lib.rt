//! PRISM files judged: whether their names, sizes and types have faults, and which is the least. Files that are the same but for the
//! places that their trees keep mean the same, have one form, and have faults or none alike; and judged files are written out, their
//! formulas and their copies of modules, whatever the places.
#![tactic(auto)]

mod actions;
mod check;
mod copies;
mod declarations;
mod demands;
mod doubled;
mod file_names;
mod formula_sizes;
mod judge;
mod laws;
mod lost_names;
mod module_sizes;
mod names;
mod naming;
mod places_laws;
mod scope;
mod sizes;
mod starts;
mod tables;
mod tree_size;
mod types;
mod typing;
mod unknown;
mod values;
mod variables;
mod writes;
mod writing;
mod written_out;

pub use check::{CheckedPrism, check_prism};
pub use declarations::uses_of;
pub use file_names::FileNames;
pub use laws::{flat_is_clean_law, written_out_sizes_law};
pub use places_laws::{form_law, meaning_law, places_law};
pub use sizes::{HEIGHT_LIMIT, NODE_LIMIT};
pub use tree_size::Size;
pub use written_out::{FlatPrism, flatten};
