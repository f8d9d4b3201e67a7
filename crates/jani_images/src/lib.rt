//! The expressions of JANI files as expressions of PRISM files, under new names. Each has the value of the expression that it is
//! the image of.
#![tactic(auto)]

mod images;
mod laws;

pub use images::image;
pub use laws::image_law;
