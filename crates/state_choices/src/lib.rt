//! The choices of a state of a Markov decision process, for PRISM and JANI alike, from what the commands or edges of the
//! state come out as: no expression and no variable is left.
//! What is wide or too many is answered in its order, and too many before anything is built.
#![tactic(auto)]

mod bounds;
mod branches;
mod choices;
mod data;
mod faults;
mod flaws;
mod grouped;
mod groups;
mod laws;
mod numbers;
mod open;
mod opening;
mod product;
mod rewards;
mod stepping;
mod values;

pub use choices::choices_of;
pub use data::{Action, Command, Group, Item, Member, Part, Reward, Update, Vector, Write};
pub use grouped::GroupedSteps;
pub use groups::{choices_of_elements, choices_of_modules, element_groups, module_groups};
pub use laws::{group_laws, member_laws, trimming_law};
pub use open::{OpenBranch, OpenChoice, OpenOutcome};
pub use opening::open_choices;
pub use rewards::sum_of;
pub use stepping::has_step;
pub use values::number_of;
