//! Model files translated, from bytes to text: PRISM files to JANI files, without properties and with those of a properties file; and the
//! properties of JANI files to PRISM's.
#![tactic(auto)]

mod jani_properties;
mod laws;
mod properties;
mod translation;

pub use jani_properties::translate_properties;
pub use laws::one_text_law;
pub use prop_check::one_list_of_faults;
pub use properties::{FilesRefused, translate_with_properties};
pub use translation::translate;
