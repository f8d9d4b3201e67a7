//! The expressions of PRISM files as expressions of JANI files, under new names. Each has the value and the type of the
//! expression that it is the image of.
#![tactic(auto)]

mod images;
mod laws;

pub use images::{NewNames, image};
pub use laws::image_laws;
