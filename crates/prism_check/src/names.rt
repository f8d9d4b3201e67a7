// The faults of names, and an order of the formulas.

ghost use Rattle.std.specs.Prelude.{◌≡◌, List, ℕ, ◌++◌, map, IfOk, None};
ghost use Rattle.std.specs.List.{flat_map};
ghost use Rattle.prism_tree.specs.Syntax.{file_of};
ghost use Rattle.name_rules.specs.Circles.{turns_from};
ghost use Rattle.prism_check.specs.Judged.{AreJudged};
ghost use Rattle.name_rules.specs.Least.{soonest};
ghost use Rattle.prism_check.specs.NameFaults.{copy_faults, doubled_names, no_module, unknown_names, values};
ghost use Rattle.prism_check.specs.Tables.{IsScope, module_under, named_module};
ghost use Rattle.name_rules.specs.Names.{named_by};

use crate::copies::judge_copies;
use crate::declarations::declarations;
use crate::doubled::judge_twice;
use crate::scope::{Scope, judge_unknown_names};
use crate::starts::judge_starts;
use crate::tables::{Formulas, Modules};
use crate::values::values;
use bridge_io::{Fault, Reason, together};
use name_rules::{Entry, NameSet, judge_circles, sooner_if};
use prism_tree::PrismFile;
use std::alloc::{AllocError, Global};

/// What the names of a file come to.
#[derive(Drop)]
pub(crate) enum Names {
    /// The least of their faults.
    Faulty(Fault),
    /// They have none, and the formulas stand at these places, each after those that it names.
    Ordered(Vec<usize>),
}

/// The least fault of the names of a file: of those that are declared twice, that are not declared, that depend on themselves,
/// of copies and modules, and of first values beside an initial condition. Else an order of the formulas.
pub(crate) fn judge_names(alloc: Global, file: &PrismFile) -> Result<Names, AllocError>
    ensures { IfOk result (AreJudged (file_of file.now)) }
{
    let unknown = judge_declared(alloc, file)?;
    let all = declarations(alloc, file)?;
    let circles = judge_circles(alloc, &all, unknown)?;
    let copied = judge_copied(alloc, file, circles.best)?;
    match judge_starts(file, copied) {
        Some(fault) => Ok(Names::Faulty(fault)),
        None => {
            let order = formula_turns(alloc, file.constants.len(), &circles.turns)?;
            Ok(Names::Ordered(order))
        }
    }
}

// The turns of the formulas, which stand behind so many constants, as places among the formulas.
fn formula_turns(alloc: Global, constants: usize, turns: &[usize]) -> Result<Vec<usize>, AllocError>
    ensures { IfOk result (λ list. list.items ≡ turns_from constants turns.now) }
{
    let mut list = Vec::with_capacity(alloc, turns.len())?;
    for turn in turns {
        if *turn >= constants {
            list.push(*turn - constants)?;
        }
    }
    Ok(list)
}

// The least fault of names that are declared twice or not at all. The tables that this takes are let go.
fn judge_declared(alloc: Global, file: &PrismFile) -> Result<Option<Fault>, AllocError>
    ensures { let f = file_of file.now in IfOk result (λ best. best ≡ soonest (soonest None (doubled_names f)) (unknown_names f)) }
{
    let modules = Modules::of(alloc, file.modules.as_slice())?;
    let names = values(alloc, file, &modules)?;
    let twice = judge_twice(alloc, file, &names, None);
    let (twice, scope) = together(twice, scope(alloc, file, modules, names))?;
    let judged = judge_unknown_names(alloc, file, &scope, twice);
    drop(scope);
    judged
}

// The least of a fault that was found before, those of copies, and that of a file without modules.
fn judge_copied(
    alloc: Global,
    file: &PrismFile,
    before: Option<Fault>,
) -> Result<Option<Fault>, AllocError>
    ensures { let f = file_of file.now in
        IfOk result (λ best. best ≡ soonest (soonest before (flat_map (copy_faults f) f.modules)) (no_module f)) }
{
    let modules = Modules::of(alloc, file.modules.as_slice())?;
    let judged = judge_copies(alloc, file.modules.as_slice(), &modules, before);
    drop(modules);
    let copies = judged?;
    let empty = file.modules.len() == 0;
    Ok(sooner_if(empty, file.end, Reason::Nothing, copies))
}

// The tables of the file.
fn scope<'a>(
    alloc: Global,
    file: &'a PrismFile,
    modules: Modules<'a>,
    names: Vec<Entry<'a>>,
) -> Result<Scope<'a>, AllocError>
    requires modules { (x : List ℕ) → module_under modules x ≡ named_module file.now.modules x }
    requires names { map named_by names.items ≡ values (file_of file.now) }
    ensures { IfOk result (λ s. IsScope s (file_of file.now)) }
{
    let known = NameSet::of(alloc, &names);
    drop(names);
    let formulas = Formulas::of(alloc, file.formulas.as_slice());
    let (formulas, known) = together(formulas, known)?;
    Ok(Scope {
        modules,
        formulas,
        known,
    })
}
