// The least of the faults so far.
ghost use Rattle.std.specs.Prelude.{◌≡◌};
ghost use Rattle.jani_table.specs.Faults.{fault_if};
ghost use Rattle.name_rules.specs.Least.{soonest};

use bridge_io::{Fault, Reason};
use name_rules::sooner;

/// The lesser of a fault that was found before, if one was, and one of this reason at this offset, if there is a reason.
pub fn sooner_if(best: Option<Fault>, at: usize, reason: Option<Reason>) -> Option<Fault>
    ensures { result ≡ soonest best (fault_if at reason) }
{
    match reason {
        Some(reason) => sooner(best, at, reason),
        None => best,
    }
}
