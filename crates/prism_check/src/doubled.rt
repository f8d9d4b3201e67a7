// All names of a file that are declared twice.

ghost use Rattle.std.specs.Prelude.{◌≡◌, ◌++◌, map, IfOk};
ghost use Rattle.std.specs.List.{flat_map};
ghost use Rattle.bridge_io.specs.declared.reason.Reason.TheVariants.{TwiceNamed};
ghost use Rattle.prism_tree.specs.Syntax.{file_of, label_of, module_of};
ghost use Rattle.name_rules.specs.Least.{soonest};
ghost use Rattle.name_rules.specs.Doubled.{doubled};
ghost use Rattle.prism_check.specs.NameFaults.{doubled_names, doubled_pairs, given_labels, values};
ghost use Rattle.name_rules.specs.Names.{named_by};

use crate::naming::{Naming, add_names_of};
use bridge_io::{Fault, Reason};
use name_rules::{Entry, judge_doubled};
use prism_tree::{PrismFile, PrismLabel, PrismModule};
use std::alloc::{AllocError, Global};

/// The least of a fault that was found before and those of names that are declared twice, where all that the file
/// declares is in this list.
pub(crate) fn judge_twice(
    alloc: Global,
    file: &PrismFile,
    names: &[Entry],
    before: Option<Fault>,
) -> Result<Option<Fault>, AllocError>
    requires { map named_by names.now ≡ values (file_of file.now) }
    ensures { IfOk result (λ best. best ≡ soonest before (doubled_names (file_of file.now))) }
{
    let among_values = judge_doubled(alloc, Reason::TwiceNamed, names, before)?;
    let among_modules = judge_names_of(alloc, file.modules.as_slice(), among_values)?;
    let among_labels = judge_labels(alloc, file.labels.as_slice(), among_modules)?;
    let among_rewards = judge_names_of(alloc, file.rewards.as_slice(), among_labels)?;
    judge_pairs(alloc, file.modules.as_slice(), among_rewards)
}

fn judge_names_of<T: Naming>(
    alloc: Global,
    parts: &[T],
    before: Option<Fault>,
) -> Result<Option<Fault>, AllocError>
    ensures { IfOk result (λ best. best ≡ soonest before (doubled TwiceNamed (flat_map T.names parts.now))) }
{
    let mut list = Vec::new(alloc);
    add_names_of(parts, &mut list)?;
    judge_doubled(alloc, Reason::TwiceNamed, &list, before)
}

// Each model has the labels "init" and "deadlock" already.
fn judge_labels(
    alloc: Global,
    labels: &[PrismLabel],
    before: Option<Fault>,
) -> Result<Option<Fault>, AllocError>
    ensures { IfOk result
        (λ best. best ≡ soonest before (doubled TwiceNamed (given_labels ++ map (λ l. l.name) (map label_of labels.now)))) }
{
    let mut list = Vec::new(alloc);
    list.push(Entry {
        name: "init",
        at: 0,
    })?;
    list.push(Entry {
        name: "deadlock",
        at: 0,
    })?;
    add_names_of(labels, &mut list)?;
    judge_doubled(alloc, Reason::TwiceNamed, &list, before)
}

fn judge_pairs(
    alloc: Global,
    modules: &[PrismModule],
    before: Option<Fault>,
) -> Result<Option<Fault>, AllocError>
    ensures { IfOk result (λ best. best ≡ soonest before (flat_map doubled_pairs (map module_of modules.now))) }
{
    let mut best = before;
    for entry in modules {
        best = judge_pairs_of(alloc, entry, best)?;
    }
    Ok(best)
}

fn judge_pairs_of(
    alloc: Global,
    entry: &PrismModule,
    before: Option<Fault>,
) -> Result<Option<Fault>, AllocError>
    ensures { IfOk result (λ best. best ≡ soonest before (doubled_pairs (module_of entry.now))) }
{
    match entry {
        PrismModule::Plain(_) => Ok(before),
        PrismModule::Copied(m) => judge_names_of(alloc, m.pairs.as_slice(), before),
    }
}
