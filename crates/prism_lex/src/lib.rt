//! The tokens of PRISM texts: reserved words, identifiers, quoted names, numbers and symbols, each the longest
//! at its place behind the longest gap, with the values of numbers and the faults of a text. A reader calls
//! `next_token` until the end or the first fault; `one_list` and `reader_laws` say what it has then. `read_tokens`
//! is such a reader, which keeps the names and numbers of a text in tables and 8 bytes of each token.
#![tactic(auto)]

mod automaton;
mod gap;
mod kept;
mod laws;
mod reader;
mod symbols;
mod token;
mod words;

pub use automaton::State;
pub use kept::{Found, Kept, Lexed, Lexer, name_from};
pub use laws::{gap_law, number_laws, one_list, reader_laws};
pub use reader::read_tokens;
pub use symbols::Symbol;
pub use token::{Token, TokenKind, next_token};
pub use words::Reserved;
