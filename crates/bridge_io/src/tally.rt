// The calls of a device in memory that are to fail, and the counts of its calls and its faults.
ghost use Rattle.std.specs.Prelude.{◌≡◌, ◌↔◌, ◌<◌, ◌≤◌, OnOk, OnErr, IsTrue};
ghost use Rattle.bridge_io.specs.Tally.{FailsNext, IsCalm, no_counts, with_call, with_failing, with_fault};

use std::alloc::{AllocError, Global};
use std::marker::Model;

/// The numbers of the calls that are to fail, counted from 1, the calls so far and the faults so far.
/// A count stands still at its last value.
#[derive(Drop)]
pub(crate) struct Tally {
    failing: Vec<u64>,
    calls: u64,
    faults: u64,
}

impl Model for Tally {
    ghost use Rattle.std.specs.Prelude.{◌<◌, ◌^◌, All};
    ghost use Rattle.bridge_io.specs.Tally.{Counts};

    ghost Value = { Counts };

    ghost view = { λ t. record { failing = t.failing.items; calls = t.calls; faults = t.faults } };

    ghost invariant = { λ t. All (λ number. number < 2 ^ 64) t.failing.items };
}

impl Tally {
    pub(crate) fn new(alloc: Global) -> Tally
        ensures { result ≡ no_counts }
    {
        Tally {
            failing: Vec::new(alloc),
            calls: 0,
            faults: 0,
        }
    }

    /// The call of this number is to fail.
    pub(crate) fn fail_call(&mut self, call: u64) -> Result<(), AllocError>
        ensures ok { OnOk result (self.new ≡ with_failing self.old call) }
        ensures err { OnErr result (self.new ≡ self.old) }
    {
        self.failing.push(call)?;
        Ok(())
    }

    /// Counts a call, and tells whether it is one that is to fail.
    pub(crate) fn next_fails(&mut self) -> bool
        ensures fails { IsTrue result ↔ FailsNext self.old }
        ensures calls { self.new ≡ with_call self.old }
        ensures calm { IsCalm self.old → IsCalm self.new }
    {
        let Some(call) = self.calls.checked_add(1) else {
            return false;
        };
        self.calls = call;
        self.failing.contains(&call)
    }

    /// Counts a fault.
    pub(crate) fn fault(&mut self)
        ensures faults { self.new ≡ with_fault self.old }
        ensures count { self.old.faults ≤ self.new.faults }
    {
        self.faults = self.faults.saturating_add(1);
    }
}
