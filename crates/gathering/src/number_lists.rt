// Lists that stand under numbers.

ghost use Rattle.std.specs.Prelude.{◌≡◌, ◌++◌, ◌<◌, ℕ, [], length, nat_eq, OnOk};
ghost use Rattle.process_core.specs.Instance.{only_if};
ghost use Rattle.gathering.specs.Lists.{list_for};

use bridge_io::List;
use std::alloc::{AllocError, Global};

/// A list for each number; all but some are empty.
#[derive(Drop)]
pub struct NumberLists<T> {
    lists: Vec<List<T>>,
}

impl<T: Drop> NumberLists<T> {
    /// Empty lists.
    pub fn new(alloc: Global) -> NumberLists<T>
        ensures { (k : ℕ) → list_for result k ≡ [] }
    {
        NumberLists {
            lists: Vec::new(alloc),
        }
    }

    /// Adds a value at the end of the list for a number. `Err` is want of memory.
    pub fn add(&mut self, alloc: Global, number: usize, value: T) -> Result<(), AllocError>
        ensures { OnOk result
            ((k : ℕ) → list_for self.new k ≡ list_for self.old k ++ only_if (nat_eq k number) value) }
    {
        self.grow(alloc, number)?;
        self.lists[number].push(value)?;
        Ok(())
    }

    /// Makes room for a number.
    fn grow(&mut self, alloc: Global, number: usize) -> Result<(), AllocError>
        ensures room { OnOk result (number < length self.new.lists.items) }
        ensures same { OnOk result ((k : ℕ) → list_for self.new k ≡ list_for self.old k) }
    {
        'grow: while self.lists.len() <= number {
            self.lists.push(List::new(alloc))?;
        }
        Ok(())
    }

    /// The list for a number.
    pub fn get(&self, number: usize) -> &[T]
        ensures { result.now ≡ list_for self.now number }
    {
        match self.lists.get(number) {
            Some(list) => list.as_slice(),
            None => &[],
        }
    }
}
