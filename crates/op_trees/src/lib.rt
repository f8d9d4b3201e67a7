//! Expression trees over any set of operators: their values, their types, their size, and new trees made of them.
//! A language gives its operators and what they mean; everything here is written and proved once for all of them.
//! What a tree means stands over trees without addresses, in `specs/`.
#![tactic(auto)]

mod evaluation;
mod laws;
mod measure;
mod operator;
mod rebuild;
mod standard;
mod tree;
mod typing;
mod walk;
mod wanted;

pub use evaluation::{apply_both, apply_one, eval, held, literal};
pub use laws::{
    evaluation_law, formula_law, mapping_law, offset_law, renaming_law, substitution_law,
    typing_law,
};
pub use measure::{count, height, offset_of, same};
pub use operator::{Names, Operator};
pub use rebuild::{Bodies, OpMap, Shape, copy_expr, map_ops, one, substitute, three, two};
pub use standard::StandardOp;
pub use tree::{EvalFail, Expr, Next, Ty, Value};
pub use typing::type_of;
pub use walk::{Fold, fold_ops};
pub use wanted::{Wanted, is_wanted, wanted_by};
