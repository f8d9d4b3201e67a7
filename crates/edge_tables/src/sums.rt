// Sums of numbers, by names; each stands at 2^64 - 1 where it would pass that.

ghost use Rattle.std.specs.Prelude.{◌≡◌, ◌+◌, List, ℕ, OnOk, bytes_eq, if◌then◌else◌};
ghost use Rattle.op_trees.specs.Tree.{capped};
ghost use Rattle.edge_tables.specs.Code.{sum_under};

use name_rules::NameMap;
use std::alloc::{AllocError, Global};

/// A sum under each name; most are 0.
#[derive(Drop)]
pub(crate) struct Sums<'a> {
    by_name: NameMap<'a, u64>,
}

impl<'a> Sums<'a> {
    /// All are 0.
    pub(crate) fn new(alloc: Global) -> Sums<'a>
        ensures { (x : List ℕ) → sum_under result x ≡ 0 }
    {
        Sums {
            by_name: NameMap::new(alloc),
        }
    }

    /// The sum under a name.
    pub(crate) fn get(&self, name: &str) -> u64
        ensures { result ≡ sum_under self.now name.now }
    {
        match self.by_name.get(name) {
            Some(sum) => sum,
            None => 0,
        }
    }

    /// Adds a number to the sum under a name.
    pub(crate) fn add(&mut self, name: &'a str, number: u64) -> Result<(), AllocError>
        ensures { OnOk result ((x : List ℕ) → sum_under self.new x
            ≡ (if bytes_eq name.now x then capped (sum_under self.old x + number) else sum_under self.old x)) }
    {
        let sum = self.get(name).saturating_add(number);
        self.by_name.put(name, sum)
    }
}
