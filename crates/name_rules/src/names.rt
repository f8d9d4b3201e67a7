// Names, each with the place where a fault of it would be; sets of names.

ghost use Rattle.std.specs.Prelude.{◌≡◌, ◌++◌, ◌∷◌, [], map, IfOk, OnOk};
ghost use Rattle.std.specs.List.{list_any};
ghost use Rattle.name_rules.specs.Names.{add, has_name, is_among, named_by, no_name, with_all};

use crate::map::NameMap;
use bridge_io::Named;
use std::alloc::{AllocError, Global};

/// A name of the file, and an offset.
#[derive(Clone, Copy)]
pub struct Entry<'a> {
    /// The name.
    pub name: &'a str,
    /// Where a fault of it stands.
    pub at: usize,
}

/// Adds a name. `Err` is want of memory.
pub fn add_name<'a>(name: &'a Named, list: &mut Vec<Entry<'a>>) -> Result<(), AllocError>
    ensures { OnOk result (map named_by list.new.items ≡ map named_by list.old.items ++ name.now ∷ []) }
{
    list.push(Entry {
        name: name.name.as_str(),
        at: name.at,
    })?;
    Ok(())
}

/// A set of names.
pub struct NameSet<'a> {
    names: NameMap<'a, ()>,
}

// Written out, so that it is proved here, and not in each crate that holds one.
impl<'a> Drop for NameSet<'a> {
    fn drop(self) {
        let NameSet { names } = self;
        drop(names);
    }
}

impl<'a> NameSet<'a> {
    /// No names.
    pub fn new(alloc: Global) -> NameSet<'a>
        ensures { has_name result ≡ no_name }
    {
        NameSet {
            names: NameMap::new(alloc),
        }
    }

    /// The names of these entries. `Err` is want of memory.
    pub fn of(alloc: Global, entries: &[Entry<'a>]) -> Result<NameSet<'a>, AllocError>
        ensures { IfOk result (λ set. has_name set ≡ is_among (map named_by entries.now)) }
    {
        let mut set = NameSet::new(alloc);
        for entry in entries {
            set.add(entry.name)?;
        }
        Ok(set)
    }

    /// Adds a name, which the set may have had before. `Err` is want of memory.
    pub fn add(&mut self, name: &'a str) -> Result<(), AllocError>
        ensures { OnOk result (has_name self.new ≡ add (has_name self.old) name.now) }
    {
        self.names.put(name, ())
    }

    /// Adds these names. `Err` is want of memory.
    pub fn add_all(&mut self, names: &[&'a str]) -> Result<(), AllocError>
        ensures { OnOk result (has_name self.new ≡ with_all (has_name self.old) (map (λ s. s.now) names.now)) }
    {
        for name in names {
            self.add(*name)?;
        }
        Ok(())
    }

    /// Whether the set has a name.
    pub fn has(&self, name: &str) -> bool
        ensures { result ≡ has_name self.now name.now }
    {
        self.names.get(name).is_some()
    }

    /// Whether the set has one of these names.
    pub fn has_some(&self, names: &[&str]) -> bool
        ensures { result ≡ list_any (has_name self.now) (map (λ s. s.now) names.now) }
    {
        for name in names {
            if self.has(*name) {
                return true;
            }
        }
        false
    }
}
