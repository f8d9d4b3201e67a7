//! The names of model files that are read are short: they have at most 255 bytes. And labels of JANI files are texts.
#![tactic(auto)]

mod laws;

pub use laws::{
    few_asks_law, flat_names_law, jani_labels_law, jani_names_law, prism_names_law,
    property_names_law, translated_names_law,
};
