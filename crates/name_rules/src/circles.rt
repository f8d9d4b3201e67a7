// Declarations that depend on themselves.

ghost use Rattle.std.specs.Prelude.{◌≡◌, ◌<◌, [], ℕ, true, length, map, IfOk, OnOk};
ghost use Rattle.name_rules.specs.Least.{soonest};
ghost use Rattle.name_rules.specs.Circles.{AreTurns, circles, circular, declared_at, declared_by, is_circular};
ghost use Rattle.name_rules.specs.Names.{has_name, no_name};
ghost use Rattle.name_rules.specs.Rounds.{FallIn, StillLeading, IsLeadingTry, IsLeadingTurn, IsPlaced, is_past};

use crate::declarations::{Declaration, some_use};
use crate::least::sooner_if;
use crate::names::NameSet;
use crate::placing::{Placing, place_all};
use crate::ranks::{Ranks, falling_ranks, is_apart};
use crate::search::by_depth;
use crate::telling::Telling;
use crate::users::Users;
use bridge_io::{Fault, Reason};
use std::alloc::{AllocError, Global};

/// The least fault so far, and an order of what is declared.
#[derive(Drop)]
pub struct Circles {
    /// The least of a fault that was found before and those of what depends on itself.
    pub best: Option<Fault>,
    /// Places of declarations, each behind those of all that it uses; all of them where nothing depends on itself.
    pub turns: Vec<usize>,
}

/// The least of a fault that was found before and those of what depends on itself; and an order in which what is declared
/// stands behind what it uses. `Err` is want of memory.
pub fn judge_circles(
    alloc: Global,
    all: &[Declaration],
    before: Option<Fault>,
) -> Result<Circles, AllocError>
    ensures best { IfOk result (λ r. r.best ≡ soonest before (circles (map declared_by all.now))) }
    ensures turns { IfOk result (λ r. circles (map declared_by all.now) ≡ [] → AreTurns (map declared_by all.now) r.turns.items) }
{
    let first = by_depth(alloc, all)?;
    let placing = place_all(alloc, all, &first)?;
    let best = judge_unplaced(alloc, all, &first, &placing, before)?;
    Ok(Circles {
        best,
        turns: placing.turns,
    })
}

// The least of a fault that was found before and those of declarations that lead to themselves. None of those that have
// their places does. Places that come first are looked at first.
fn judge_unplaced(
    alloc: Global,
    all: &[Declaration],
    first: &[usize],
    placing: &Placing,
    before: Option<Fault>,
) -> Result<Option<Fault>, AllocError>
    requires { IsPlaced all.now placing.now }
    ensures { IfOk result (λ best. best ≡ soonest before (circles (map declared_by all.now))) }
{
    let users = Users::of(alloc, all, placing.placed.as_slice())?;
    let ranks = falling_ranks(alloc, all, first, placing, &users)?;
    judge_each(alloc, all, &users, placing, ranks.as_ref(), before)
}

// Each is judged by ranks by which no declaration uses a name above its own, if there are such.
fn judge_each(
    alloc: Global,
    all: &[Declaration],
    users: &Users,
    placing: &Placing,
    ranks: Option<&Ranks>,
    before: Option<Fault>,
) -> Result<Option<Fault>, AllocError>
    requires placed { IsPlaced all.now placing.now }
    requires falling { FallIn all.now ranks }
    ensures { IfOk result (λ best. best ≡ soonest before (circles (map declared_by all.now))) }
{
    let mut best = before;
    for i in 0..all.len() {
        best = judge_declaration(alloc, all, users, placing, ranks, i, best)?;
    }
    Ok(best)
}

fn judge_declaration(
    alloc: Global,
    all: &[Declaration],
    users: &Users,
    placing: &Placing,
    ranks: Option<&Ranks>,
    i: usize,
    before: Option<Fault>,
) -> Result<Option<Fault>, AllocError>
    requires placed { IsPlaced all.now placing.now }
    requires falling { FallIn all.now ranks }
    requires within { i < length all.now }
    ensures { let ds = map declared_by all.now in IfOk result (λ best. best ≡ soonest before (circular ds (declared_at ds i))) }
{
    let declaration = &all[i];
    if !placing.waiting.tells(declaration.name) || is_past(before, declaration.at) {
        return Ok(before);
    }
    if is_apart(ranks, declaration) {
        return Ok(before);
    }
    let circular = is_circular(alloc, all, users, declaration)?;
    Ok(sooner_if(circular, declaration.at, Reason::Cycle, before))
}

// Whether a fault was found that stands before this offset.
fn is_past(before: Option<Fault>, at: usize) -> bool
    ensures { result ≡ is_past before at }
{
    match before {
        Some(fault) => fault.at < at,
        None => false,
    }
}

// Whether a declaration leads to itself.
fn is_circular<'a>(
    alloc: Global,
    all: &[Declaration<'a>],
    users: &Users,
    declaration: &Declaration<'a>,
) -> Result<bool, AllocError>
    ensures { IfOk result (λ b. b ≡ is_circular (map declared_by all.now) (declared_by declaration.now)) }
{
    let mut leading = NameSet::new(alloc);
    is_led_round(alloc, all, users, declaration, &mut leading)
}

// The same where the names that lead to this one are to be added to none.
fn is_led_round<'a>(
    alloc: Global,
    all: &[Declaration<'a>],
    users: &Users,
    declaration: &Declaration<'a>,
    leading: &mut NameSet<'a>,
) -> Result<bool, AllocError>
    requires { has_name leading.old ≡ no_name }
    ensures { IfOk result (λ b. b ≡ is_circular (map declared_by all.now) (declared_by declaration.now)) }
{
    leading.add(declaration.name)?;
    add_found(alloc, all, users, declaration.name, leading)?;
    loop {
        if !add_some(all, leading)? {
            return Ok(some_use(leading, declaration));
        }
    }
}

// Adds the names of those declarations that use one of the names that lead to this one, from those that use this name on.
fn add_found<'a>(
    alloc: Global,
    all: &[Declaration<'a>],
    users: &Users,
    name: &str,
    leading: &mut NameSet<'a>,
) -> Result<(), AllocError>
    ensures { OnOk result (StillLeading all.now (has_name leading.old) (has_name leading.new)) }
{
    let mut todo = Vec::new(alloc);
    users.push_users(name, &mut todo)?;
    for _step in 0..usize::MAX {
        let Some(i) = todo.pop() else {
            break;
        };
        if try_add(all, i, leading)?
            && let Some(declaration) = all.get(i)
        {
            users.push_users(declaration.name, &mut todo)?;
        }
    }
    Ok(())
}

// Adds the names of those declarations that use one of the names that lead to this one, as they stand, and whether there were
// any.
fn add_some<'a>(all: &[Declaration<'a>], leading: &mut NameSet<'a>) -> Result<bool, AllocError>
    ensures leading { OnOk result (StillLeading all.now (has_name leading.old) (has_name leading.new)) }
    ensures turn { IfOk result (IsLeadingTurn all.now (has_name leading.old) (has_name leading.new)) }
{
    let mut some = false;
    for i in 0..all.len() {
        if try_add(all, i, leading)? {
            some = true;
        }
    }
    Ok(some)
}

// Adds the name of a declaration if it uses one of the names that lead to this one, and whether it did so.
fn try_add<'a>(
    all: &[Declaration<'a>],
    i: usize,
    leading: &mut NameSet<'a>,
) -> Result<bool, AllocError>
    ensures leading { OnOk result (StillLeading all.now (has_name leading.old) (has_name leading.new)) }
    ensures turn { IfOk result (IsLeadingTry all.now i (has_name leading.old) (has_name leading.new)) }
{
    if i >= all.len() || leading.has(all[i].name) || !some_use(leading, &all[i]) {
        return Ok(false);
    }
    leading.add(all[i].name)?;
    Ok(true)
}
