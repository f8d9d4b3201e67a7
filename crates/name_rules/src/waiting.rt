// How many declarations of each name are not placed yet.

ghost use Rattle.std.specs.Prelude.{◌≡◌, ◌<◌, ◌+◌, List, ℕ, [], map, IfOk, OnOk, bytes_eq, if◌then◌else◌};
ghost use Rattle.name_rules.specs.Rounds.{count_in, one_if, waiting};
ghost use Rattle.name_rules.specs.Circles.{declared_by};

use crate::declarations::Declaration;
use crate::map::NameMap;
use crate::telling::Telling;
use std::alloc::{AllocError, Global};

/// So many of a name wait for their places.
#[derive(Drop)]
pub(crate) struct Waiting<'a> {
    counts: NameMap<'a, usize>,
}

impl<'a> Waiting<'a> {
    /// All of these.
    pub(crate) fn of(alloc: Global, all: &[Declaration<'a>]) -> Result<Waiting<'a>, AllocError>
        ensures { IfOk result (λ w. (x : List ℕ) → count_in w x ≡ waiting (map declared_by all.now) [] x) }
    {
        let mut waiting = Waiting {
            counts: NameMap::new(alloc),
        };
        for declaration in all {
            let count = waiting.count(declaration.name);
            waiting.put(declaration.name, count + 1)?;
        }
        Ok(waiting)
    }

    /// How many of this name.
    fn count(&self, name: &str) -> usize
        ensures { result ≡ count_in self.now name.now }
    {
        match self.counts.get(name) {
            Some(count) => count,
            None => 0,
        }
    }

    fn put(&mut self, name: &'a str, count: usize) -> Result<(), AllocError>
        ensures { OnOk result ((x : List ℕ) → count_in self.new x ≡ (if bytes_eq name.now x then count else count_in self.old x)) }
    {
        self.counts.put(name, count)
    }

    /// One of this name is placed.
    pub(crate) fn less(&mut self, name: &'a str) -> Result<(), AllocError>
        requires { 0 < count_in self.old name.now }
        ensures { OnOk result ((x : List ℕ) → count_in self.old x ≡ one_if (bytes_eq name.now x) + count_in self.new x) }
    {
        let count = self.count(name);
        self.put(name, count - 1)
    }
}

impl Telling for Waiting<'_> {
    ghost use Rattle.name_rules.specs.Rounds.{waits_in};

    ghost tells = { waits_in };

    fn tells(&self, name: &str) -> bool {
        self.count(name) > 0
    }
}
