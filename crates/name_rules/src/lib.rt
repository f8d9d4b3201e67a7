//! Rules on names that both languages have: the least of some faults, sets and maps of names, names that are declared
//! twice, and names that lead round in circles.
#![tactic(auto)]

mod circles;
mod declarations;
mod doubled;
mod least;
mod map;
mod names;
mod placing;
mod ranks;
mod rule;
mod search;
mod telling;
mod unknown;
mod users;
mod uses;
mod waiting;

pub use circles::{Circles, judge_circles};
pub use declarations::Declaration;
pub use doubled::{Lowest, judge_doubled, judge_doubled_after};
pub use least::{sooner, sooner_if};
pub use map::NameMap;
pub use names::{Entry, NameSet, add_name};
pub use rule::{Judged, Rule, judge_each};
pub use telling::{Telling, some_name};
pub use unknown::{judge_expression, judge_name, judge_uses};
pub use uses::add_names;
