// A property as it is written in a JANI file (jani-model specification, version 1, "Properties").

use bridge_io::Named;
use jani_tree::JaniExpr;
use prop_trees::{Compare, JaniPath};

/// What is asked; a reward structure is the name of a transient variable.
#[derive(Drop)]
pub enum WrittenAsk {
    /// The greatest probability.
    PMax,
    /// The least probability.
    PMin,
    /// Whether the probability is within a bound.
    PBound(Compare, JaniExpr),
    /// The greatest reward until the paths reach their end.
    RMax(Named),
    /// The least reward until the paths reach their end.
    RMin(Named),
}

/// A property with its name. In its expressions a name of the model stands with a `.` before it.
#[derive(Drop)]
pub struct Written {
    pub name: Named,
    pub ask: WrittenAsk,
    pub path: JaniPath,
}
