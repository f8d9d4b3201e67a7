//! The items of PRISM files: from the tokens of a text to its tree, or the token that cannot stand there.
#![tactic(auto)]

mod closed;
mod declarations;
mod files;
mod modules;
mod readers;
mod rewards;
mod sections;
mod updates;

pub use files::parse_sections;
pub use readers::{between, read_symbol, read_word, word_next};
