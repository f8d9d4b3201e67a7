// Variables with a first value of their own in a file with an initial condition.

ghost use Rattle.std.specs.Prelude.{◌≡◌, map};
ghost use Rattle.std.specs.List.{flat_map};
ghost use Rattle.prism_tree.specs.Syntax.{file_of, module_of, var_of};
ghost use Rattle.name_rules.specs.Least.{soonest};
ghost use Rattle.prism_check.specs.NameFaults.{own_start, own_starts, two_inits};

use bridge_io::{Fault, Reason};
use name_rules::sooner_if;
use prism_tree::{PrismFile, PrismModule, PrismVar};

/// The least of a fault that was found before and those of variables with a first value of their own, where the file has an
/// initial condition.
pub(crate) fn judge_starts(file: &PrismFile, before: Option<Fault>) -> Option<Fault>
    ensures { result ≡ soonest before (two_inits (file_of file.now)) }
{
    if file.init.is_none() {
        return before;
    }
    let globals = judge_vars(file.globals.as_slice(), before);
    judge_modules(file.modules.as_slice(), globals)
}

fn judge_modules(all: &[PrismModule], before: Option<Fault>) -> Option<Fault>
    ensures { result ≡ soonest before (flat_map own_starts (map module_of all.now)) }
{
    let mut best = before;
    for entry in all {
        best = judge_module(entry, best);
    }
    best
}

fn judge_module(entry: &PrismModule, before: Option<Fault>) -> Option<Fault>
    ensures { result ≡ soonest before (own_starts (module_of entry.now)) }
{
    match entry {
        PrismModule::Plain(m) => judge_vars(m.vars.as_slice(), before),
        PrismModule::Copied(_) => before,
    }
}

fn judge_vars(vars: &[PrismVar], before: Option<Fault>) -> Option<Fault>
    ensures { result ≡ soonest before (flat_map own_start (map var_of vars.now)) }
{
    let mut best = before;
    for var in vars {
        best = sooner_if(var.start.is_some(), var.name.at, Reason::TwoInits, best);
    }
    best
}
