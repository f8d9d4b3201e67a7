// The properties of a JANI file, as trees.

use bridge_io::Text;
use jani_tree::JaniExpr;
use prop_grammar::Compare;

/// What is asked. A reward structure is its number among the global numeric transients of the file.
#[derive(Drop)]
pub enum JaniAsk {
    /// The greatest probability.
    PMax,
    /// The least probability.
    PMin,
    /// Whether the probability is within a bound.
    PBound(Compare, JaniExpr),
    /// The greatest reward until the paths reach their end.
    RMax(usize),
    /// The least reward until the paths reach their end.
    RMin(usize),
}

/// The form of the paths, a bound of steps first.
pub enum JaniPath {
    /// `F e`
    Finally(JaniExpr),
    /// `G e`
    Globally(JaniExpr),
    /// `a U b`
    Until(JaniExpr, JaniExpr),
    /// `a W b`
    WeakUntil(JaniExpr, JaniExpr),
    /// `F<=k e`
    FinallyWithin(JaniExpr, JaniExpr),
    /// `a U<=k b`
    UntilWithin(JaniExpr, JaniExpr, JaniExpr),
}

// Written out, so that it is proved here, and not wherever one is held.
impl Drop for JaniPath {
    fn drop(self) {
        match self {
            JaniPath::Finally(value) => drop(value),
            JaniPath::Globally(value) => drop(value),
            JaniPath::Until(value0, value1) => {
                drop(value0);
                drop(value1);
            },
            JaniPath::WeakUntil(value0, value1) => {
                drop(value0);
                drop(value1);
            },
            JaniPath::FinallyWithin(value0, value1) => {
                drop(value0);
                drop(value1);
            },
            JaniPath::UntilWithin(value0, value1, value2) => {
                drop(value0);
                drop(value1);
                drop(value2);
            },
        }
    }
}

/// A property with its name, if it has one. In its expressions a name of the model, labels included, stands with a `.` before it; `init`
/// and `deadlock` without it are the labels that every model has.
pub struct JaniProperty {
    pub name: Option<Text>,
    pub ask: JaniAsk,
    pub path: JaniPath,
}

// Written out, so that it is proved here, and not wherever one is held.
impl Drop for JaniProperty {
    fn drop(self) {
        let JaniProperty { name, ask, path } = self;
        drop(name);
        drop(ask);
        drop(path);
    }
}
