//! The modules of the PRISM file that a JANI file is translated to: elements become modules, their edges commands. What these are
//! stands in `prism_translation`; what they are made of is in `module_parts`.
#![tactic(auto)]

mod commands;
mod element_modules;
mod loops;
mod served;

pub use element_modules::modules;
pub use module_parts::{
    Classes, Element, FileParts, LastingVar, Names, WriterTable, at_home, constants, counted,
    elements, falsehood, file_parts, globals, image, image_if, is_there, lasting_variables,
    name_at, new_names, scope_of, shared, truth,
};
