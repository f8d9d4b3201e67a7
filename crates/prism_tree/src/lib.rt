//! The abstract syntax of the PRISM language for Markov decision processes, its operators and its grammar. The grammar is
//! a relation between lists of tokens and trees, and its faults are stated beside it.
#![tactic(auto)]

mod laws;
mod operator;
mod syntax;

pub use laws::alike_law;
pub use operator::PrismOp;
pub use syntax::{
    CopiedModule, ItemOn, NamePair, PlainModule, PrismBranch, PrismCommand, PrismConst, PrismExpr,
    PrismFile, PrismFormula, PrismItem, PrismLabel, PrismModule, PrismRange, PrismRewards,
    PrismVar, PrismWrite,
};
