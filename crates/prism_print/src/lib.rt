//! The canonical text of a PRISM file. It spells the same file, offsets aside, where names are names, literals are in
//! normal form and nodes have their operands, as in every file that a text spells.
#![tactic(auto)]

mod commands;
mod declarations;
mod expressions;
mod file;
mod laws;
mod modules;
mod parts;

pub use expressions::{is_node, write_expression};
pub use file::print;
pub use laws::{commented_law, printable_law};
