// The least of the faults so far.

ghost use Rattle.std.specs.Prelude.{◌≡◌};
ghost use Rattle.name_rules.specs.Least.{fault, fault_if, sooner, soonest};

use bridge_io::{Fault, Reason};

/// The lesser of a fault that was found before, if one was, and one of this reason at this offset.
pub fn sooner(best: Option<Fault>, at: usize, reason: Reason) -> Option<Fault>
    ensures { result ≡ sooner best (fault at reason) }
{
    match best {
        None => Some(Fault { reason, at }),
        Some(known) => {
            if at < known.at || at == known.at && reason.number() < known.reason.number() {
                Some(Fault { reason, at })
            } else {
                Some(known)
            }
        }
    }
}

/// The lesser of a fault that was found before, if one was, and one of this reason at this offset, where the test holds.
pub fn sooner_if(test: bool, at: usize, reason: Reason, best: Option<Fault>) -> Option<Fault>
    ensures { result ≡ soonest best (fault_if test at reason) }
{
    if test { sooner(best, at, reason) } else { best }
}
