// Names that are not declared, of a whole file.

ghost use Rattle.std.specs.Prelude.{◌≡◌, ◌++◌, [], List, ℕ, map, length, not, is_some, true, None, Some, IfOk};
ghost use Rattle.std.specs.List.{flat_map, list_any};
ghost use Rattle.std.specs.Option.{option_map};
ghost use Rattle.op_trees.specs.Tree.{written_out};
ghost use Rattle.prism_tree.specs.Syntax.{copied, file_of, formula_of, module_of};
ghost use Rattle.prism_flat.specs.Names.{part_of};
ghost use Rattle.prism_check.specs.Demands.{command_demands, formula_demands, var_demands};
ghost use Rattle.prism_check.specs.Known.{AreKnown, own_unknown};
ghost use Rattle.prism_check.specs.Levels.{lost_in};
ghost use Rattle.prism_check.specs.Views.{demand_by};
ghost use Rattle.name_rules.specs.Least.{soonest};
ghost use Rattle.name_rules.specs.Names.{has_name};
ghost use Rattle.prism_check.specs.NameFaults.{is_copy, loses_name, some_used, unknown_in, unknown_names};
ghost use Rattle.prism_check.specs.Tables.{IsScope, body_in, body_under, commands_in, module_under, vars_in};

use crate::demands::{Demand, add_all, contents_demands, outer_demands};
use crate::lost_names::{Reading, loses_name};
use crate::tables::{Formulas, Modules, Renaming};
use crate::unknown::judge_unknown;
use crate::values::{commands_in, vars_in};
use bridge_io::{Fault, Reason};
use name_rules::{NameSet, sooner_if};
use prism_tree::{CopiedModule, PrismFile, PrismFormula, PrismModule};
use std::alloc::{AllocError, Global};

/// The names of a file, as tables.
#[derive(Drop)]
pub(crate) struct Scope<'a> {
    pub(crate) modules: Modules<'a>,
    pub(crate) formulas: Formulas<'a>,
    pub(crate) known: NameSet<'a>,
}

/// The least of a fault that was found before and those of names that are not declared.
pub(crate) fn judge_unknown_names(
    alloc: Global,
    file: &PrismFile,
    scope: &Scope,
    before: Option<Fault>,
) -> Result<Option<Fault>, AllocError>
    requires { IsScope scope.now (file_of file.now) }
    ensures { IfOk result (λ best. best ≡ soonest before (unknown_names (file_of file.now))) }
{
    let clean = are_known(alloc, file, scope)?;
    let outer = outer_demands(alloc, file)?;
    let in_outer = judge_unknown(&scope.known, &outer, before);
    let bodies = body_demands(alloc, file.formulas.as_slice())?;
    let in_bodies = judge_unknown(&scope.known, &bodies, in_outer);
    judge_modules(
        alloc,
        file,
        file.modules.as_slice(),
        scope,
        clean,
        in_bodies,
    )
}

// Whether each name in the bodies of formulas and in what modules contain is known. It is asked for copies alone.
fn are_known(alloc: Global, file: &PrismFile, scope: &Scope) -> Result<bool, AllocError>
    requires { IsScope scope.now (file_of file.now) }
    ensures { IfOk result (λ b. b ≡ true → AreKnown (file_of file.now)) }
{
    if !has_copy(file.modules.as_slice()) {
        return Ok(false);
    }
    let bodies = body_demands(alloc, file.formulas.as_slice())?;
    if judge_unknown(&scope.known, &bodies, None).is_some() {
        return Ok(false);
    }
    contents_known(alloc, file.modules.as_slice(), &scope.known)
}

// Whether one of these modules is a copy.
pub(crate) fn has_copy(all: &[PrismModule]) -> bool
    ensures { result ≡ list_any (λ m. is_copy (Some m)) (map module_of all.now) }
{
    for entry in all {
        if is_copy(entry) {
            return true;
        }
    }
    false
}

fn is_copy(entry: &PrismModule) -> bool
    ensures { result ≡ is_copy (Some (module_of entry.now)) }
{
    match entry {
        PrismModule::Plain(_) => false,
        PrismModule::Copied(_) => true,
    }
}

// Whether each name in what these modules contain is known.
fn contents_known(alloc: Global, all: &[PrismModule], known: &NameSet) -> Result<bool, AllocError>
    ensures { IfOk result (λ b. b ≡ true → flat_map (own_unknown (has_name known.now)) (map module_of all.now) ≡ []) }
{
    for entry in all {
        if own_unknown(alloc, entry, known)?.is_some() {
            return Ok(false);
        }
    }
    Ok(true)
}

fn own_unknown(
    alloc: Global,
    entry: &PrismModule,
    known: &NameSet,
) -> Result<Option<Fault>, AllocError>
    ensures { IfOk result (λ best. best ≡ soonest None (own_unknown (has_name known.now) (module_of entry.now))) }
{
    match entry {
        PrismModule::Plain(m) => {
            let list = contents_demands(alloc, m.vars.as_slice(), m.commands.as_slice())?;
            Ok(judge_unknown(known, &list, None))
        }
        PrismModule::Copied(_) => Ok(None),
    }
}

/// The demands of the bodies of formulas.
pub(crate) fn body_demands(
    alloc: Global,
    formulas: &[PrismFormula],
) -> Result<Vec<Demand>, AllocError>
    ensures { IfOk result (λ list. map demand_by list.items ≡ flat_map formula_demands (map formula_of formulas.now)) }
{
    let mut list = Vec::new(alloc);
    add_all(formulas, &mut list)?;
    Ok(list)
}

fn judge_modules(
    alloc: Global,
    file: &PrismFile,
    all: &[PrismModule],
    scope: &Scope,
    clean: bool,
    before: Option<Fault>,
) -> Result<Option<Fault>, AllocError>
    requires scope { IsScope scope.now (file_of file.now) }
    requires clean { clean ≡ true → AreKnown (file_of file.now) }
    ensures { IfOk result (λ best. best ≡ soonest before (flat_map (unknown_in (file_of file.now)) (map module_of all.now))) }
{
    let mut best = before;
    for entry in all {
        best = judge_module(alloc, file, entry, scope, clean, best)?;
    }
    Ok(best)
}

fn judge_module(
    alloc: Global,
    file: &PrismFile,
    entry: &PrismModule,
    scope: &Scope,
    clean: bool,
    before: Option<Fault>,
) -> Result<Option<Fault>, AllocError>
    requires scope { IsScope scope.now (file_of file.now) }
    requires clean { clean ≡ true → AreKnown (file_of file.now) }
    ensures { IfOk result (λ best. best ≡ soonest before (unknown_in (file_of file.now) (module_of entry.now))) }
{
    match entry {
        PrismModule::Plain(m) => {
            let list = contents_demands(alloc, m.vars.as_slice(), m.commands.as_slice())?;
            Ok(judge_unknown(&scope.known, &list, before))
        }
        PrismModule::Copied(m) => {
            let first = sooner_if(modules_lack(scope, m), m.from.at, Reason::Unknown, before);
            let loses = copy_loses_name(alloc, file, m, scope, clean)?;
            Ok(sooner_if(loses, m.name.at, Reason::Unknown, first))
        }
    }
}

// Whether the copied module is missing.
fn modules_lack(scope: &Scope, m: &CopiedModule) -> bool
    ensures { result ≡ not (is_some (module_under scope.now.modules m.now.from.name)) }
{
    scope.modules.called(m.from.name.as_str()).is_none()
}

// Whether some name of the copy is lost. Where all names of the file are known, only a pair can lose one, so that what is copied
// is gone through only for such pairs.
fn copy_loses_name(
    alloc: Global,
    file: &PrismFile,
    m: &CopiedModule,
    scope: &Scope,
    clean: bool,
) -> Result<bool, AllocError>
    requires scope { IsScope scope.now (file_of file.now) }
    requires clean { clean ≡ true → AreKnown (file_of file.now) }
    ensures { IfOk result (λ b. b ≡ loses_name (file_of file.now) (part_of (file_of file.now) (copied m.now))) }
{
    let from = scope.modules.called(m.from.name.as_str());
    let renaming = Renaming::of(alloc, m.pairs.as_slice())?;
    let reading = Reading {
        known: &scope.known,
        formulas: &scope.formulas,
        renaming: &renaming,
    };
    let loses = if clean && !reading.some_lost(m.pairs.as_slice()) {
        Ok(false)
    } else {
        contents_lose_name(alloc, file.formulas.as_slice(), from, &reading)
    };
    drop(renaming);
    loses
}

// Whether some name in the contents of a module is lost.
fn contents_lose_name<'b>(
    alloc: Global,
    formulas: &[PrismFormula],
    from: Option<&'b PrismModule>,
    reading: &Reading<'_, 'b, '_>,
) -> Result<bool, AllocError>
    requires { (x : List ℕ) → body_under reading.now.formulas.now x ≡ body_in formulas.now x }
    ensures { let contents = option_map (λ m. module_of m.now) from.entry in
        IfOk result
        (λ b. b
        ≡ list_any (some_used (lost_in reading.now) (written_out (body_in formulas.now) (length formulas.now)))
        (flat_map var_demands (vars_in contents) ++ flat_map command_demands (commands_in contents))) }
{
    let demands = contents_demands(alloc, vars_in(from), commands_in(from))?;
    loses_name(alloc, formulas, reading, &demands)
}
