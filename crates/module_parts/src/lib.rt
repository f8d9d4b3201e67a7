//! What the modules of the PRISM file that a JANI file is translated to are made of: elements and their locations, expressions,
//! updates; and the file's variables and constants. What these are stands in `prism_translation`.
#![tactic(auto)]

mod element;
mod entries;
mod gathered;
mod homes;
mod images;
mod naming;
mod parts;
mod updates;
mod writers;

pub use element::{Element, elements};
pub use entries::{Classes, Names, name_at};
pub use gathered::{FileParts, file_parts};
pub use homes::{at_home, globals, lasting_variables, shared};
pub use images::image;
pub use naming::new_names;
pub use parts::{
    LastingVar, constants, counted, falsehood, image_if, is_there, scope_of, truth, variable,
};
pub use updates::branches;
pub use writers::WriterTable;
