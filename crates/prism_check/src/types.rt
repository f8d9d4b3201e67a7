// The faults of types, and of what commands write.

ghost use Rattle.std.specs.Prelude.{◌≡◌, List, ℕ, length, map, IfOk, None, Some};
ghost use Rattle.std.specs.List.{flat_map};
ghost use Rattle.prism_tree.specs.Syntax.{command_of, copied, file_of, module_of, var_of};
ghost use Rattle.prism_flat.specs.Places.{IsPlaceOrder};
ghost use Rattle.name_rules.specs.Least.{soonest};
ghost use Rattle.prism_check.specs.TypeFaults.{module_faults, numbered_faults, type_faults};
ghost use Rattle.prism_check.specs.Tables.{module_under, named_module};
ghost use Rattle.prism_check.specs.Typing.{AreNames, IsDeclared, contents_faults, contents_in, faults_in, soonest_at};
ghost use Rattle.prism_check.specs.Views.{demand_by};
ghost use Rattle.prism_check.specs.Writings.{IsWriting};

use crate::demands::{Demand, contents_demands, outer_demands};
use crate::scope::body_demands;
use crate::tables::{Modules, Renaming};
use crate::typing::{Names, Spot, judge_type, known_formulas, sooner_at, varies};
use crate::values::{commands_in, vars_in};
use crate::variables::{Declared, declarations};
use crate::writes::{judge_repeated, judge_write};
use crate::writing::Writing;
use bridge_io::{Fault, Reason, together};
use op_trees::offset_of;
use prism_tree::{CopiedModule, PrismCommand, PrismFile, PrismModule, PrismVar};
use std::alloc::{AllocError, Global};

/// The least fault of the types of a file and of what its commands write, if it has one. `order` has the places of the
/// formulas, each after those that it names. `Err` is want of memory.
pub(crate) fn judge_types(
    alloc: Global,
    file: &PrismFile,
    order: &[usize],
) -> Result<Option<Fault>, AllocError>
    requires { IsPlaceOrder (file_of file.now) order.now }
    ensures { IfOk result (λ best. best ≡ soonest None (type_faults (file_of file.now))) }
{
    let modules = Modules::of(alloc, file.modules.as_slice())?;
    let judged = judge_declared(alloc, file, order, &modules);
    drop(modules);
    judged
}

// The same by the modules of the file.
fn judge_declared<'t>(
    alloc: Global,
    file: &'t PrismFile,
    order: &[usize],
    modules: &Modules<'t>,
) -> Result<Option<Fault>, AllocError>
    requires order { IsPlaceOrder (file_of file.now) order.now }
    requires modules { (x : List ℕ) → module_under modules.now x ≡ named_module file.now.modules x }
    ensures { IfOk result (λ best. best ≡ soonest None (type_faults (file_of file.now))) }
{
    let declared = declarations(alloc, file, modules)?;
    let judged = judge_typed(alloc, file, order, modules, &declared);
    drop(declared);
    judged
}

// The same by the modules and the declarations of the file.
fn judge_typed<'t>(
    alloc: Global,
    file: &'t PrismFile,
    order: &[usize],
    modules: &Modules<'t>,
    declared: &Declared<'t>,
) -> Result<Option<Fault>, AllocError>
    requires order { IsPlaceOrder (file_of file.now) order.now }
    requires modules { (x : List ℕ) → module_under modules.now x ≡ named_module file.now.modules x }
    requires declared { IsDeclared declared.now (file_of file.now) }
    ensures { IfOk result (λ best. best ≡ soonest None (type_faults (file_of file.now))) }
{
    let formulas = known_formulas(alloc, declared, file.formulas.as_slice(), order);
    let (formulas, writing) = together(formulas, Writing::of(alloc, file, order))?;
    let names = Names {
        declared,
        formulas: &formulas,
        renaming: None,
    };
    let judged = judge_all(alloc, file, modules, &names, &writing);
    drop(writing);
    drop(formulas);
    judged
}

// The same by the tables of the file, what stands outside of modules first.
fn judge_all<'t>(
    alloc: Global,
    file: &'t PrismFile,
    modules: &Modules<'t>,
    names: &Names<'_, 't, '_>,
    writing: &Writing<'t, '_>,
) -> Result<Option<Fault>, AllocError>
    requires modules { (x : List ℕ) → module_under modules.now x ≡ named_module file.now.modules x }
    requires names { AreNames names.now (file_of file.now) }
    requires unchanged { names.now.renaming ≡ None }
    requires writing { IsWriting writing.now (file_of file.now) }
    ensures { IfOk result (λ best. best ≡ soonest None (type_faults (file_of file.now))) }
{
    let spot = Spot {
        number: 0,
        place: None,
    };
    let outer = outer_demands(alloc, file)?;
    let in_outer = judge_demands(names, spot, &outer, None);
    let bodies = body_demands(alloc, file.formulas.as_slice())?;
    let in_bodies = judge_demands(names, spot, &bodies, in_outer);
    judge_modules(
        alloc,
        file,
        file.modules.as_slice(),
        modules,
        names,
        writing,
        in_bodies,
    )
}

// What stands in a file or in a module of this number.
fn judge_demands(
    names: &Names,
    spot: Spot,
    demands: &[Demand],
    before: Option<Fault>,
) -> Option<Fault>
    ensures { result ≡ soonest_at spot.place before (flat_map (faults_in names.now spot.number) (map demand_by demands.now)) }
{
    let mut best = before;
    for demand in demands {
        best = judge_demand(names, spot, demand, best);
    }
    best
}

fn judge_demand(names: &Names, spot: Spot, demand: &Demand, best: Option<Fault>) -> Option<Fault>
    ensures { result ≡ soonest_at spot.place best (faults_in names.now spot.number (demand_by demand.now)) }
{
    match demand {
        Demand::Fixed(wanted, e) => {
            let first = judge_type(names, spot.place, *wanted, e, best);
            sooner_at(
                spot.place,
                varies(names, e),
                offset_of(e),
                Reason::NotConstant,
                first,
            )
        }
        Demand::Varying(wanted, e) => judge_type(names, spot.place, *wanted, e, best),
        Demand::Written(acts, write) => judge_write(names, spot, *acts, write, best),
    }
}

// These variables and commands.
fn judge_contents(
    alloc: Global,
    names: &Names,
    spot: Spot,
    vars: &[PrismVar],
    commands: &[PrismCommand],
    before: Option<Fault>,
) -> Result<Option<Fault>, AllocError>
    ensures { IfOk result
        (λ best. best
        ≡ soonest_at spot.place before (contents_in names.now spot.number (map var_of vars.now) (map command_of commands.now))) }
{
    let demands = contents_demands(alloc, vars, commands)?;
    let first = judge_demands(names, spot, &demands, before);
    judge_repeated(alloc, names, spot.place, commands, first)
}

// A module that has its own contents, and no copy.
fn judge_plain(
    alloc: Global,
    names: &Names,
    spot: Spot,
    entry: &PrismModule,
    before: Option<Fault>,
) -> Result<Option<Fault>, AllocError>
    ensures { IfOk result
        (λ best. best ≡ soonest_at spot.place before (contents_faults names.now spot.number (module_of entry.now))) }
{
    match entry {
        PrismModule::Plain(m) => judge_contents(
            alloc,
            names,
            spot,
            m.vars.as_slice(),
            m.commands.as_slice(),
            before,
        ),
        PrismModule::Copied(_) => Ok(before),
    }
}

// A copy is judged as the module that it is written out to, and all its faults stand at its name.
fn judge_module<'t>(
    alloc: Global,
    file: &'t PrismFile,
    modules: &Modules<'t>,
    names: &Names<'_, 't, '_>,
    writing: &Writing<'t, '_>,
    number: usize,
    entry: &'t PrismModule,
    before: Option<Fault>,
) -> Result<Option<Fault>, AllocError>
    requires modules { (x : List ℕ) → module_under modules.now x ≡ named_module file.now.modules x }
    requires names { AreNames names.now (file_of file.now) }
    requires unchanged { names.now.renaming ≡ None }
    requires writing { IsWriting writing.now (file_of file.now) }
    ensures { IfOk result
        (λ best. best ≡ soonest before (module_faults (file_of file.now) number (module_of entry.now))) }
{
    match entry {
        PrismModule::Plain(_) => {
            let spot = Spot {
                number,
                place: None,
            };
            judge_plain(alloc, names, spot, entry, before)
        }
        PrismModule::Copied(m) => {
            let spot = Spot {
                number,
                place: Some(m.name.at),
            };
            if file.formulas.len() == 0 {
                return judge_renamed(alloc, file, modules, names, spot, m, before);
            }
            let written = writing.module(alloc, file, entry)?;
            let judged = judge_plain(alloc, names, spot, &written, before);
            drop(written);
            judged
        }
    }
}

// A copy in a file that has no formulas: nothing has to be written out, and each name is read as the new one.
fn judge_renamed<'t>(
    alloc: Global,
    file: &'t PrismFile,
    modules: &Modules<'t>,
    names: &Names<'_, 't, '_>,
    spot: Spot,
    m: &'t CopiedModule,
    before: Option<Fault>,
) -> Result<Option<Fault>, AllocError>
    requires modules { (x : List ℕ) → module_under modules.now x ≡ named_module file.now.modules x }
    requires names { AreNames names.now (file_of file.now) }
    requires formulas { length file.now.formulas ≡ 0 }
    requires place { spot.place ≡ Some m.now.name.at }
    ensures { IfOk result (λ best. best ≡ soonest before (module_faults (file_of file.now) spot.number (copied m.now))) }
{
    let renaming = Renaming::of(alloc, m.pairs.as_slice())?;
    let own = Names {
        declared: names.declared,
        formulas: names.formulas,
        renaming: Some(&renaming),
    };
    let from = modules.called(m.from.name.as_str());
    let judged = judge_contents(alloc, &own, spot, vars_in(from), commands_in(from), before);
    drop(renaming);
    judged
}

// These modules, numbered from 0.
fn judge_modules<'t>(
    alloc: Global,
    file: &'t PrismFile,
    all: &'t [PrismModule],
    modules: &Modules<'t>,
    names: &Names<'_, 't, '_>,
    writing: &Writing<'t, '_>,
    before: Option<Fault>,
) -> Result<Option<Fault>, AllocError>
    requires modules { (x : List ℕ) → module_under modules.now x ≡ named_module file.now.modules x }
    requires names { AreNames names.now (file_of file.now) }
    requires unchanged { names.now.renaming ≡ None }
    requires writing { IsWriting writing.now (file_of file.now) }
    ensures { IfOk result
        (λ best. best ≡ soonest before (numbered_faults (file_of file.now) 0 (map module_of all.now))) }
{
    let mut best = before;
    for (number, entry) in all.iter().enumerate() {
        best = judge_module(alloc, file, modules, names, writing, number, entry, best)?;
    }
    Ok(best)
}
