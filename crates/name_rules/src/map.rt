// Values by name.

ghost use Rattle.std.specs.Prelude.{◌≡◌, OnOk};
ghost use Rattle.name_rules.specs.Names.{nothing, put, put_first, under};

use std::alloc::{AllocError, Global};
use std::collections::BTreeMap;

/// At most one value under each name. They stand in order of the names, so that no choice of names makes finding one slow.
pub struct NameMap<'a, T: Copy> {
    entries: BTreeMap<&'a str, T>,
}

// Written out, so that it is proved here, and not in each crate that holds one.
impl<'a, T: Copy> Drop for NameMap<'a, T> {
    fn drop(self) {
        let NameMap { entries } = self;
        drop(entries);
    }
}

impl<'a, T: Copy> NameMap<'a, T> {
    /// Nothing under any name.
    #[tactic(auto, unfolding(crate::specs::Names::under))]
    pub fn new(alloc: Global) -> NameMap<'a, T>
        ensures { under result ≡ nothing }
    {
        NameMap {
            entries: BTreeMap::new(alloc),
        }
    }

    /// Puts a value under a name, in place of one that stood there. `Err` is want of memory.
    #[tactic(auto, unfolding(crate::specs::Names::under))]
    pub fn put(&mut self, name: &'a str, value: T) -> Result<(), AllocError>
        ensures { OnOk result (under self.new ≡ put (under self.old) name.now value) }
    {
        match self.entries.insert(name, value) {
            Ok(_) => Ok(()),
            Err(_) => Err(AllocError),
        }
    }

    /// Puts a value under a name, if none stands there. `Err` is want of memory.
    pub fn put_first(&mut self, name: &'a str, value: T) -> Result<(), AllocError>
        ensures { OnOk result (under self.new ≡ put_first (under self.old) name.now value) }
    {
        if self.get(name).is_some() {
            return Ok(());
        }
        self.put(name, value)
    }

    /// What stands under a name.
    #[tactic(auto, unfolding(crate::specs::Names::under))]
    pub fn get(&self, name: &str) -> Option<T>
        ensures { result ≡ under self.now name.now }
    {
        self.entries.get(name).copied()
    }
}
