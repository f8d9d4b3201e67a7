// The table of the entries with their new names.

ghost use Rattle.std.specs.Prelude.{◌≡◌, ◌<◌, length, Some, IfOk, OnOk, OnErr, option_copied, slice_get};
ghost use Rattle.std.specs.Option.{option_map};
ghost use Rattle.name_table.specs.Entries.{Table, keeps, next, no_entries, with_next, made_entry, kept_entry, entries_of, asks_of};
ghost use Rattle.name_table.specs.State.{IsTable};

use crate::class::{NameClass, Target};
use crate::counts::Counts;
use crate::entry::Entry;
use crate::identifier::is_valid;
use crate::making::{begins_zz, made_name};
use crate::taken::Taken;
use bridge_io::Text;
use std::alloc::{AllocError, Global};
use std::marker::Model;

/// The entries that were made for a target, with their new names. Contracts see the target and the list of the entries.
pub struct NameTable {
    alloc: Global,
    target: Target,
    entries: Vec<Entry>,
    taken: Taken,
    counts: Counts,
}

// Written out, so that it is proved here, and not wherever one is held.
impl Drop for NameTable {
    fn drop(self) {
        let NameTable {
            alloc: _,
            target: _,
            entries,
            taken,
            counts,
        } = self;
        drop(entries);
        drop(taken);
        drop(counts);
    }
}

impl Model for NameTable {
    ghost use Rattle.name_table.specs.Entries.{Table};

    ghost Value = { Table };

    ghost use Rattle.name_table.specs.State.{IsTable};

    ghost view = { λ t. record { target = t.target; entries = t.entries.items } };

    ghost invariant = { λ t. IsTable t.target t.entries.items t.taken t.counts };
}

impl NameTable {
    /// A table with no entries.
    pub fn new(alloc: Global, target: Target) -> NameTable
        ensures { result ≡ no_entries target }
    {
        NameTable {
            alloc,
            target,
            entries: Vec::new(alloc),
            taken: Taken::new(alloc),
            counts: Counts::new(),
        }
    }

    /// Whether the next entry, of this class, keeps this name.
    fn keeps(&self, class: NameClass, name: &str) -> bool
        ensures { result ≡ keeps self.now.target self.now.entries class name.now }
    {
        !matches!(class, NameClass::Location)
            && is_valid(self.target, class, name)
            && !begins_zz(name)
            && !self.taken.has(class.space_in(self.target), name)
    }

    /// An entry that keeps a name.
    fn kept(&self, class: NameClass, name: &str) -> Result<Entry, AllocError>
        ensures { IfOk result (λ e. e ≡ kept_entry class name.now) }
    {
        Ok(Entry {
            class,
            name: Text::copy_of(self.alloc, name)?,
            kept: true,
        })
    }

    /// The next entry of this class, with a name that is made.
    fn made(&self, class: NameClass) -> Result<Entry, AllocError>
        ensures { IfOk result (λ e. e ≡ made_entry self.now.entries class) }
    {
        Ok(Entry {
            class,
            name: made_name(self.alloc, class, self.counts.get(class))?,
            kept: false,
        })
    }

    /// The next entry.
    fn next(&self, class: NameClass, old: Option<&str>) -> Result<Entry, AllocError>
        ensures { IfOk result (λ e. e ≡ next self.now.target self.now.entries class (option_copied old.entry)) }
    {
        match old {
            None => self.made(class),
            Some(name) => {
                if self.keeps(class, name) {
                    self.kept(class, name)
                } else {
                    self.made(class)
                }
            }
        }
    }

    /// Adds an entry; its number. Where memory is refused the table stays as it was.
    pub fn keep_or_make(&mut self, class: NameClass, old: Option<&str>) -> Result<usize, AllocError>
        ensures number { IfOk result (λ n. n ≡ length self.old.entries) }
        ensures ok { OnOk result (self.new ≡ with_next self.old class (option_copied old.entry)) }
        ensures err { OnErr result (self.new ≡ self.old) }
    {
        let entry = self.next(class, old)?;
        let name = String::from_str(self.alloc, entry.name.as_str())?;
        self.entries.push(entry)?;
        let number = self.entries.len() - 1;
        if let Err(e) = self.taken.add(class.space_in(self.target), name) {
            let _ = self.entries.pop();
            return Err(e);
        }
        self.counts.add(class);
        Ok(number)
    }

    /// How many entries there are. They are those of some asks.
    pub fn len(&self) -> usize
        ensures len { result ≡ length self.now.entries }
        ensures made { entries_of self.now.target (asks_of self.now.entries) ≡ self.now.entries }
    {
        self.entries.len()
    }

    /// The entries in order, without memory.
    pub fn as_slice(&self) -> &[Entry]
        ensures { result.now ≡ self.now.entries }
    {
        self.entries.as_slice()
    }

    /// The new name of an entry, without memory.
    pub fn new_name(&self, entry: usize) -> &str
        requires { entry < length self.now.entries }
        ensures { option_map (λ e. e.name) (slice_get self.now.entries entry) ≡ Some result.now }
    {
        self.entries[entry].name.as_str()
    }

    /// Whether the new name of an entry is the old one that was kept.
    pub fn was_kept(&self, entry: usize) -> bool
        requires { entry < length self.now.entries }
        ensures { option_map (λ e. e.kept) (slice_get self.now.entries entry) ≡ Some result }
    {
        self.entries[entry].kept
    }
}
