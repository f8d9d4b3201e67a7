//! Which names a translation keeps and which it makes. A `NameTable` is told the entries one after another, each with
//! its class and its old name, and says their new names; `names_law` says what holds of these. `jani_names` gives the
//! table of all that a PRISM file declares, `prism_names` that of a JANI file. The rule is this project's own.
#![tactic(auto)]

mod ask;
mod asking;
mod class;
mod counts;
mod entry;
mod gather;
mod identifier;
mod jani_parts;
mod laws;
mod making;
mod places;
mod prism_asking;
mod table;
mod taken;

pub use ask::{HasName, ask_each};
pub use asking::{flat_names, jani_names};
pub use class::{NameClass, Target};
pub use entry::Entry;
pub use gather::{actions, commands_of, name_of, variables};
pub use jani_parts::{OwnedVar, element_automata, labels, lasting, structures};
pub use laws::names_law;
pub use places::{instead, made};
pub use prism_asking::{parts_names, prism_names};
pub use table::NameTable;
