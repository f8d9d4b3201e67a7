// The properties of a PRISM file, as trees.

use bridge_io::Text;
use prism_tree::PrismExpr;
use prop_grammar::Compare;

/// What is asked. A reward structure is its number among those of the file.
#[derive(Drop)]
pub enum Ask {
    /// The greatest probability.
    PMax,
    /// The least probability.
    PMin,
    /// Whether the probability is within a bound.
    PBound(Compare, PrismExpr),
    /// The greatest reward until the paths reach their end.
    RMax(usize),
    /// The least reward until the paths reach their end.
    RMin(usize),
}

/// The form of the paths, a bound of steps first.
pub enum Path {
    /// `F e`
    Finally(PrismExpr),
    /// `G e`
    Globally(PrismExpr),
    /// `a U b`
    Until(PrismExpr, PrismExpr),
    /// `a W b`
    WeakUntil(PrismExpr, PrismExpr),
    /// `F<=k e`
    FinallyWithin(PrismExpr, PrismExpr),
    /// `a U<=k b`
    UntilWithin(PrismExpr, PrismExpr, PrismExpr),
}

// Written out, so that it is proved here, and not wherever one is held.
impl Drop for Path {
    fn drop(self) {
        match self {
            Path::Finally(value) => drop(value),
            Path::Globally(value) => drop(value),
            Path::Until(value0, value1) => {
                drop(value0);
                drop(value1);
            },
            Path::WeakUntil(value0, value1) => {
                drop(value0);
                drop(value1);
            },
            Path::FinallyWithin(value0, value1) => {
                drop(value0);
                drop(value1);
            },
            Path::UntilWithin(value0, value1, value2) => {
                drop(value0);
                drop(value1);
                drop(value2);
            },
        }
    }
}

/// A property with its name, if it has one. In its expressions a name of the model, labels included, stands with a `.` before it; `init`
/// and `deadlock` without it are the labels that every model has. A label of the file stands between quotes.
pub struct Property {
    pub name: Option<Text>,
    pub ask: Ask,
    pub path: Path,
}

// Written out, so that it is proved here, and not wherever one is held.
impl Drop for Property {
    fn drop(self) {
        let Property { name, ask, path } = self;
        drop(name);
        drop(ask);
        drop(path);
    }
}
