//! What is known of the edges of the elements of a JANI file by their actions, and how the choices of its vectors are split between
//! the targets that they have in PRISM; and, by both, which global variables are split between elements, and whether the translation
//! would be too large. The rule is this project's own.
#![tactic(auto)]

mod counts;
mod edges;
mod loop_counts;
mod participants;
mod parts;
mod places;
mod shared;
mod splits;
mod starts;
mod sums;
mod values;

pub use counts::has_too_many;
pub use edges::{ElementEdges, RankedEdge, element_edges};
pub use participants::add_for_each;
pub use parts::{is_another, part_of};
pub use places::Places;
pub use shared::judge_shared;
pub use splits::{VectorSplit, all_splits};
pub use starts::{has_condition, has_many_starts};
pub use values::has_many_values;
