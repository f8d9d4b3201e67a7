// Copies of modules: whether all variables are renamed, and whether a module is copied.

ghost use Rattle.std.specs.Prelude.{◌≡◌, List, ℕ, map, IfOk};
ghost use Rattle.std.specs.List.{flat_map};
ghost use Rattle.std.specs.Option.{option_map};
ghost use Rattle.prism_tree.specs.Syntax.{module_of, var_of};
ghost use Rattle.name_rules.specs.Least.{soonest};
ghost use Rattle.prism_check.specs.NameFaults.{is_copy};
ghost use Rattle.prism_check.specs.Tables.{copy_faults_by, lacks_pair_by, module_under, new_name};

use crate::tables::{Modules, Renaming};
use crate::values::vars_in;
use bridge_io::{Fault, Reason};
use name_rules::sooner_if;
use prism_tree::{PrismModule, PrismVar};
use std::alloc::{AllocError, Global};

/// The least of a fault that was found before and those of copies that leave a variable out or copy a copy.
pub(crate) fn judge_copies(
    alloc: Global,
    all: &[PrismModule],
    modules: &Modules,
    before: Option<Fault>,
) -> Result<Option<Fault>, AllocError>
    ensures { IfOk result
        (λ best. best ≡ soonest before (flat_map (copy_faults_by (module_under modules.now)) (map module_of all.now))) }
{
    let mut best = before;
    for entry in all {
        best = judge_copy(alloc, entry, modules, best)?;
    }
    Ok(best)
}

fn judge_copy(
    alloc: Global,
    entry: &PrismModule,
    modules: &Modules,
    before: Option<Fault>,
) -> Result<Option<Fault>, AllocError>
    ensures { IfOk result (λ best. best ≡ soonest before (copy_faults_by (module_under modules.now) (module_of entry.now))) }
{
    match entry {
        PrismModule::Plain(_) => Ok(before),
        PrismModule::Copied(m) => {
            let renaming = Renaming::of(alloc, m.pairs.as_slice())?;
            let from = modules.called(m.from.name.as_str());
            let lacks = lacks_pair(vars_in(from), &renaming);
            drop(renaming);
            let first = sooner_if(lacks, m.name.at, Reason::RenameMissing, before);
            Ok(sooner_if(is_copy(from), m.from.at, Reason::RenameOfRenamed, first))
        }
    }
}

// Whether some variable has no new name.
fn lacks_pair(vars: &[PrismVar], renaming: &Renaming) -> bool
    ensures { result ≡ lacks_pair_by (new_name renaming.now) (map var_of vars.now) }
{
    for var in vars {
        if renaming.new_name(var.name.name.as_str()).is_none() {
            return true;
        }
    }
    false
}

fn is_copy(from: Option<&PrismModule>) -> bool
    ensures { result ≡ is_copy (option_map (λ m. module_of m.now) from.entry) }
{
    matches!(from, Some(PrismModule::Copied(_)))
}
