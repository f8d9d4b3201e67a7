//! The reader of PRISM expressions: tokens as they are kept, and the expressions that they spell.
#![tactic(auto)]

mod expressions;
mod leaf;
mod limit;
mod parts;
mod tokens;

pub use limit::{parse_outer, parse_outer_prim};
pub use parts::{function_of, read_symbol, symbol_next};
pub use tokens::{Cause, Found, Kept, Literal, Source, Stop, Tokens};
