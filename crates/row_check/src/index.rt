// States found by their values.

ghost use Rattle.std.specs.Prelude.{◌≡◌, List, [], length, IfOk};
ghost use Rattle.row_check.specs.Index.{AddsState, IsIndex, number_from};

use process_core::{State, key_of};
use std::alloc::{AllocError, Global};
use std::collections::BTreeMap;

/// The numbers of listed states, in order of keys that tell states apart.
#[derive(Drop)]
pub(crate) struct StateIndex {
    pub(crate) numbers: BTreeMap<Vec<i64>, usize>,
}

impl StateIndex {
    pub(crate) fn new(alloc: Global) -> StateIndex
        ensures { IsIndex result.numbers [] }
    {
        StateIndex {
            numbers: BTreeMap::new(alloc),
        }
    }

    /// Gives a state the next number, and says whether it is new; if it isn't, the index is of no further use.
    pub(crate) fn add(
        &mut self,
        alloc: Global,
        state: &State,
        number: usize,
    ) -> Result<bool, AllocError>
        ensures { IfOk result (λ is_new. (ss : List State) → IsIndex self.old.numbers ss → number ≡ length ss → AddsState self.new.numbers ss state.now is_new) }
    {
        let old = self.numbers.insert(key_of(alloc, state)?, number)?;
        Ok(old.is_none())
    }

    /// The number of a state, if it is listed.
    pub(crate) fn find(&self, alloc: Global, state: &State) -> Result<Option<usize>, AllocError>
        ensures { IfOk result (λ o. (ss : List State) → IsIndex self.now.numbers ss → o ≡ number_from 0 state.now.values ss) }
    {
        let key = key_of(alloc, state)?;
        Ok(self.numbers.get(&key).copied())
    }
}
