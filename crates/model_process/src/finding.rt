//! What is found of a claim.

use row_check::Verdict;
use value_bound::BoundVerdict;

/// What is found of a claim about a process.
#[derive(Clone, Copy)]
pub(crate) enum Finding {
    /// The verdict on a path or on rows.
    Judged(Verdict),
    /// The verdict on bounds.
    Bounds(BoundVerdict),
    /// The process has no label of the name that the bounds are for.
    NoLabel,
}
