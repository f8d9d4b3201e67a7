// What commands write.

ghost use Rattle.std.specs.Prelude.{◌≡◌, map, IfOk};
ghost use Rattle.std.specs.List.{flat_map};
ghost use Rattle.prism_tree.specs.Syntax.{branch_of, command_of, write_of};
ghost use Rattle.prism_check.specs.Demands.{written};
ghost use Rattle.prism_check.specs.TypeFaults.{target_by, wanted_at, write_faults};
ghost use Rattle.prism_check.specs.Typing.{called_by, faults_in, moved_name, read_in, repeated_by, repeated_in, soonest_at, target_in, target_under, target_view};
ghost use Rattle.name_rules.specs.Names.{named_by};

use crate::typing::{Names, Spot, judge_type, sooner_at};
use crate::variables::Owned;
use bridge_io::{Fault, Reason};
use name_rules::{Entry, judge_doubled};
use op_trees::{Ty, Wanted, wanted_by};
use prism_tree::{PrismBranch, PrismCommand, PrismWrite};
use std::alloc::{AllocError, Global};

/// What a command of a module writes: a variable of the module, a global one, or what it may not write.
#[derive(Clone, Copy)]
pub(crate) enum Target {
    Own(Ty),
    Global(Ty),
    Foreign(Wanted),
}

// What a command of the module of this number writes under a name.
fn target_named(names: &Names, number: usize, name: &str) -> Target
    ensures { target_view result ≡ target_in names.now number name.now }
{
    target_under(names, number, names.read(name))
}

// The same under a name as it is read.
#[tactic(auto, unfolding(crate::specs::Typing::target_under))]
fn target_under(names: &Names, number: usize, name: &str) -> Target
    ensures { target_view result ≡ target_under names.now number name.now }
{
    match names.formulas.get(name) {
        Some(_) => Target::Foreign(Wanted::Anything),
        None => match names.declared.variables.get(name) {
            Some(variable) => target_by(variable, number),
            None => Target::Foreign(Wanted::Anything),
        },
    }
}

// The same for a variable.
fn target_by(variable: Owned, number: usize) -> Target
    ensures { target_view result ≡ target_by variable.owner number variable.ty }
{
    match variable.owner {
        None => Target::Global(variable.ty),
        Some(owner) => {
            if owner == number {
                Target::Own(variable.ty)
            } else {
                Target::Foreign(wanted_by(variable.ty))
            }
        }
    }
}

// What the written value has to be.
fn wanted_at(target: Target) -> Wanted
    ensures { result ≡ wanted_at (target_view target) }
{
    match target {
        Target::Own(ty) => wanted_by(ty),
        Target::Global(ty) => wanted_by(ty),
        Target::Foreign(wanted) => wanted,
    }
}

// Whether it may be written, by a command that has an action or has none.
fn judge_target(
    target: Target,
    acts: bool,
    place: Option<usize>,
    at: usize,
    best: Option<Fault>,
) -> Option<Fault>
    ensures { result ≡ soonest_at place best (write_faults (target_view target) acts at) }
{
    match target {
        Target::Own(_) => best,
        Target::Global(_) => sooner_at(place, acts, at, Reason::SyncGlobalWrite, best),
        Target::Foreign(_) => sooner_at(place, true, at, Reason::ForeignWrite, best),
    }
}

/// The least of a fault that was found before and those of a write of a command that has an action or has none.
pub(crate) fn judge_write(
    names: &Names,
    spot: Spot,
    acts: bool,
    write: &PrismWrite,
    best: Option<Fault>,
) -> Option<Fault>
    ensures { result ≡ soonest_at spot.place best (faults_in names.now spot.number (written acts (write_of write.now))) }
{
    let target = target_named(names, spot.number, write.name.name.as_str());
    let first = judge_target(target, acts, spot.place, write.name.at, best);
    judge_type(names, spot.place, wanted_at(target), &write.value, first)
}

/// The least of a fault that was found before and those of variables that are written twice in one update; with a place
/// given they stand there.
pub(crate) fn judge_repeated(
    alloc: Global,
    names: &Names,
    place: Option<usize>,
    commands: &[PrismCommand],
    before: Option<Fault>,
) -> Result<Option<Fault>, AllocError>
    ensures { IfOk result
        (λ best. best ≡ soonest_at place before (flat_map (repeated_by (read_in names.now)) (map command_of commands.now))) }
{
    let mut best = before;
    for command in commands {
        best = judge_updates(alloc, names, place, command.branches.as_slice(), best)?;
    }
    Ok(best)
}

// The updates of a command.
fn judge_updates(
    alloc: Global,
    names: &Names,
    place: Option<usize>,
    branches: &[PrismBranch],
    before: Option<Fault>,
) -> Result<Option<Fault>, AllocError>
    ensures { IfOk result
        (λ best. best ≡ soonest_at place before (flat_map (repeated_in (read_in names.now)) (map branch_of branches.now))) }
{
    let mut best = before;
    for branch in branches {
        best = judge_update(alloc, names, place, branch, best)?;
    }
    Ok(best)
}

// One update.
fn judge_update(
    alloc: Global,
    names: &Names,
    place: Option<usize>,
    branch: &PrismBranch,
    before: Option<Fault>,
) -> Result<Option<Fault>, AllocError>
    ensures { IfOk result (λ best. best ≡ soonest_at place before (repeated_in (read_in names.now) (branch_of branch.now))) }
{
    let written = written_names(alloc, names, place, branch.writes.as_slice())?;
    judge_doubled(alloc, Reason::WrittenTwice, &written, before)
}

// The names that are written as they are read, each at its place or at the one that is given.
fn written_names<'a>(
    alloc: Global,
    names: &'a Names,
    place: Option<usize>,
    writes: &'a [PrismWrite],
) -> Result<Vec<Entry<'a>>, AllocError>
    ensures { IfOk result
        (λ list. map named_by list.items ≡ map (λ w. moved_name place (called_by (read_in names.now) w.name)) writes.now) }
{
    let mut list = Vec::with_capacity(alloc, writes.len())?;
    for write in writes {
        list.push(Entry {
            name: names.read(write.name.name.as_str()),
            at: place.unwrap_or(write.name.at),
        })?;
    }
    Ok(list)
}
