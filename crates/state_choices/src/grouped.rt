//! Whatever can be stepped, by the groups of combinations that it has at a state.
ghost use Rattle.std.specs.Prelude.{◌≡◌, IfOk, IsTrue, List, map};
ghost use Rattle.state_choices.specs.Groups.{Group};
ghost use Rattle.state_choices.specs.Grouped.{AreGroupsAt};
ghost use Rattle.state_choices.specs.Views.{group_of};

use crate::data::Group;
use process_core::{State, Steps};
use std::alloc::{AllocError, Global};

/// A process whose choices come of groups of combinations. What its commands or edges come out as in a state is found
/// once, and the groups are made of that; of these a step asks for what it needs.
pub trait GroupedSteps: Steps {
    /// What commands or edges come out as in a state.
    type Evaluated: Drop;

    ghost groups_of: { Self → Self.Evaluated → List Group };

    /// What its commands or edges come out as in a state. `Err` is want of memory.
    fn evaluated(&self, alloc: Global, s: &State) -> Result<Self::Evaluated, AllocError>
        requires { IsTrue ((Self.process self.now).is_state s.now.values) }
        ensures { IfOk result (λ e. AreGroupsAt (Self.process self.now) s.now.values (groups_of self.now e)) };

    /// The groups of these. `Err` is want of memory.
    fn groups<'s>(
        &'s self,
        alloc: Global,
        evaluated: &'s Self::Evaluated,
    ) -> Result<Vec<Group<'s>>, AllocError>
        ensures { IfOk result (λ gs. map group_of gs.items ≡ groups_of self.now evaluated.now) };
}
