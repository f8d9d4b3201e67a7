// What reading a model's file came to, in either language.

use bridge_io::Refused;
use jani_check::CheckedJani;
use prism_check::CheckedPrism;

/// A model's file that was read: what it is if it has no fault, or its least fault.
#[derive(Drop)]
pub enum ReadModel {
    /// One that was read as PRISM.
    Prism(Result<CheckedPrism, Refused>),
    /// One that was read as JANI.
    Jani(Result<CheckedJani, Refused>),
}
