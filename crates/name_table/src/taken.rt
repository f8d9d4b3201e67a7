// The names that are taken, by their spaces.

ghost use Rattle.std.specs.Prelude.{◌≡◌, ℕ, List, false, true, OnOk, OnErr, ◌&&◌, bytes_eq, string_bytes, if◌then◌else◌};
ghost use Rattle.std.specs.BTreeSet.{contains_text};
ghost use Rattle.name_table.specs.Rule.{same_space};
ghost use Rattle.name_table.specs.State.{has_name};

use crate::class::Space;
use std::alloc::{AllocError, Global};
use std::collections::BTreeSet;

/// The names of each space, in order.
pub(crate) struct Taken {
    values: BTreeSet<String>,
    modules: BTreeSet<String>,
    actions: BTreeSet<String>,
    labels: BTreeSet<String>,
    rewards: BTreeSet<String>,
    properties: BTreeSet<String>,
}

// Written out, so that it is proved here, and not wherever one is held.
impl Drop for Taken {
    fn drop(self) {
        let Taken {
            values,
            modules,
            actions,
            labels,
            rewards,
            properties,
        } = self;
        drop(values);
        drop(modules);
        drop(actions);
        drop(labels);
        drop(rewards);
        drop(properties);
    }
}

/// Adds a name to a set.
fn insert(names: &mut BTreeSet<String>, name: String) -> Result<(), AllocError>
    ensures ok { OnOk result ((x : List ℕ) → contains_text names.new x ≡ (if bytes_eq (string_bytes name) x then true else contains_text names.old x)) }
    ensures err { OnErr result ((x : List ℕ) → contains_text names.new x ≡ contains_text names.old x) }
{
    names.insert(name)?;
    Ok(())
}

impl Taken {
    /// No names.
    pub(crate) fn new(alloc: Global) -> Taken
        ensures { (s : Space) (x : List ℕ) → has_name result s x ≡ false }
    {
        Taken {
            values: BTreeSet::new(alloc),
            modules: BTreeSet::new(alloc),
            actions: BTreeSet::new(alloc),
            labels: BTreeSet::new(alloc),
            rewards: BTreeSet::new(alloc),
            properties: BTreeSet::new(alloc),
        }
    }

    /// The names of a space.
    fn names(&self, space: Space) -> &BTreeSet<String>
        ensures { (x : List ℕ) → contains_text result.now x ≡ has_name self.now space x }
    {
        match space {
            Space::Values => &self.values,
            Space::Modules => &self.modules,
            Space::Actions => &self.actions,
            Space::Labels => &self.labels,
            Space::Rewards => &self.rewards,
            Space::Properties => &self.properties,
        }
    }

    /// Whether a name of the space is this one.
    pub(crate) fn has(&self, space: Space, name: &str) -> bool
        ensures { result ≡ has_name self.now space name.now }
    {
        self.names(space).contains(name)
    }

    /// Adds a name to a space. Where memory is refused the names are as they were.
    pub(crate) fn add(&mut self, space: Space, name: String) -> Result<(), AllocError>
        ensures ok { OnOk result ((s : Space) (x : List ℕ) → has_name self.new s x ≡ (if same_space space s && bytes_eq (string_bytes name) x then true else has_name self.old s x)) }
        ensures err { OnErr result ((s : Space) (x : List ℕ) → has_name self.new s x ≡ has_name self.old s x) }
    {
        match space {
            Space::Values => insert(&mut self.values, name),
            Space::Modules => insert(&mut self.modules, name),
            Space::Actions => insert(&mut self.actions, name),
            Space::Labels => insert(&mut self.labels, name),
            Space::Rewards => insert(&mut self.rewards, name),
            Space::Properties => insert(&mut self.properties, name),
        }
    }
}
