// A property of a properties file, as it is written (PRISM manual, "Property Specification"). Each name and each node of an expression
// has the byte offset of its first token.

use bridge_io::{Named, Text};
use prism_tree::PrismExpr;

/// How a probability is compared with its bound.
#[derive(Clone, Copy)]
pub enum Compare {
    /// `<`
    Less,
    /// `<=`
    AtMost,
    /// `>=`
    AtLeast,
    /// `>`
    Greater,
}

/// A reward structure: the one of this name, or without a name the first one; and where the name stands, or the word that asks for
/// the first one.
#[derive(Drop)]
pub struct Structure {
    pub name: Option<Text>,
    pub at: usize,
}

/// What is asked.
#[derive(Drop)]
pub enum Query {
    /// `Pmax=?`
    PMax,
    /// `Pmin=?`
    PMin,
    /// `P>=p`, and the like
    PBound(Compare, PrismExpr),
    /// `R{"r"}max=?`
    RMax(Structure),
    /// `R{"r"}min=?`
    RMin(Structure),
}

/// The form of the paths, a bound of steps first.
#[derive(Drop)]
pub enum PathForm {
    /// `F e`
    Finally(PrismExpr),
    /// `G e`
    Globally(PrismExpr),
    /// `a U b`
    Until(PrismExpr, PrismExpr),
    /// `a W b`
    WeakUntil(PrismExpr, PrismExpr),
    /// `F<=k e`
    FinallyWithin(PrismExpr, PrismExpr),
    /// `a U<=k b`
    UntilWithin(PrismExpr, PrismExpr, PrismExpr),
}

/// A property with its name, if it has one. In its expressions a name between quotes, its quotes included, is a label.
#[derive(Drop)]
pub struct Written {
    pub name: Option<Named>,
    pub ask: Query,
    pub path: PathForm,
}
