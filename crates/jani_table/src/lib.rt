//! The members of JANI files (jani-model specification, version 1) as tables: which objects have which members, what each
//! has to be, and the least fault of a JSON value that has to be of a form. The operators of expressions, with what they
//! mean, stand here too, since the word of an operator says which members its object has.
#![tactic(auto)]

mod access;
mod fault;
mod key;
mod operator;
mod shape;
mod table;
mod words;

pub use access::{items_of, optional_of, optional_part, part, required_of, required_part, text_of};
pub use fault::sooner_if;
pub use key::Key;
pub use operator::JaniOp;
pub use shape::{
    Operands, judge, least_fault, member, named_operator, object_kind, offset, op_kind,
    operand_count,
};
pub use table::{Form, Kind, Need, Row, item_form, known_form, rows};
pub use words::{
    Feature, RefusedOp, kind_fault, null_fault, number_fault, truth_fault, ty_of, ty_text,
    word_fault,
};
