// Lists that stand under names.

ghost use Rattle.std.specs.Prelude.{◌≡◌, ◌++◌, List as ListOf, ℕ, [], bytes_eq, if◌then◌else◌, OnOk};
ghost use Rattle.process_core.specs.Instance.{only_if};
ghost use Rattle.gathering.specs.Lists.{list_under};

use bridge_io::List;
use std::alloc::{AllocError, Global};
use std::collections::BTreeMap;

/// A list for each name; all but some are empty. They stand in order of the names.
pub struct NameLists<'a, T: Drop> {
    lists: BTreeMap<&'a str, List<T>>,
}

// Written out, so that it is proved here, and not wherever one is held.
impl<'a, T: Drop> Drop for NameLists<'a, T> {
    fn drop(self) {
        let NameLists { lists } = self;
        drop(lists);
    }
}

impl<'a, T: Drop> NameLists<'a, T> {
    /// Empty lists.
    pub fn new(alloc: Global) -> NameLists<'a, T>
        ensures { (x : ListOf ℕ) → list_under result x ≡ [] }
    {
        NameLists {
            lists: BTreeMap::new(alloc),
        }
    }

    /// Adds a value at the end of the list for a name. `Err` is want of memory.
    pub fn add(&mut self, alloc: Global, name: &'a str, value: T) -> Result<(), AllocError>
        ensures { OnOk result
            ((x : ListOf ℕ) → list_under self.new x ≡ list_under self.old x ++ only_if (bytes_eq name.now x) value) }
    {
        let mut list = self.take(alloc, name);
        list.push(value)?;
        match self.lists.insert(name, list) {
            Ok(_) => Ok(()),
            Err(_) => Err(AllocError),
        }
    }

    /// Takes out the list for a name; it may be empty.
    pub fn take(&mut self, alloc: Global, name: &str) -> List<T>
        ensures list { result ≡ list_under self.old name.now }
        ensures rest { (x : ListOf ℕ) → list_under self.new x ≡ (if bytes_eq name.now x then [] else list_under self.old x) }
    {
        match self.lists.remove(name) {
            Some(list) => list,
            None => List::new(alloc),
        }
    }

    /// The list for a name.
    pub fn get(&self, name: &str) -> &[T]
        ensures { result.now ≡ list_under self.now name.now }
    {
        match self.lists.get(name) {
            Some(list) => list.as_slice(),
            None => &[],
        }
    }
}
