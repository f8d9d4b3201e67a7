// Rules for items, and lists of items judged by one.

ghost use Rattle.std.specs.Prelude.{◌≡◌, List, IfOk, map};
ghost use Rattle.std.specs.List.{flat_map};
ghost use Rattle.bridge_io.specs.declared.reason.Fault.{Fault as OneFault};
ghost use Rattle.name_rules.specs.Least.{soonest};

use bridge_io::Fault;
use std::alloc::{AllocError, Global};

/// The least fault so far, if there is one; or want of memory.
pub type Judged = Result<Option<Fault>, AllocError>;

/// A rule that tells which faults an item has. What it knows of the rest of the file stands in the type that implements it.
pub trait Rule<T> {
    /// What contracts see of an item.
    ghost Seen: { Type 0 };

    ghost view: { T → Seen };

    ghost faults: { Self → Seen → List OneFault };

    /// The least of a fault that was found before and those of an item.
    fn judge(&self, alloc: Global, item: &T, before: Option<Fault>) -> Judged
        ensures { IfOk result (λ best. best ≡ soonest before (faults self.now (view item.now))) };
}

/// The least of a fault that was found before and those of the items.
pub fn judge_each<T, R: Rule<T>>(
    alloc: Global,
    rule: &R,
    items: &[T],
    before: Option<Fault>,
) -> Judged
    ensures { IfOk result (λ best. best ≡ soonest before (flat_map (R.faults rule.now) (map R.view items.now))) }
{
    let mut best = before;
    for item in items {
        best = rule.judge(alloc, item, best)?;
    }
    Ok(best)
}
