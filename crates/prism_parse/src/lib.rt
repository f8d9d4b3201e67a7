//! The reader of PRISM files: from bytes to the tree that they spell, or their least fault.
#![tactic(auto)]

mod files;
mod laws;
mod lexing;
mod reasons;

pub use files::parse;
pub use laws::{one_syntax, one_tree};
pub use lexing::{Lexed, read_tokens};
pub use reasons::unless_deep;
