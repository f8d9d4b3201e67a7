// Ranks of names, by which it is seen that most declarations are in no circle.

ghost use Rattle.std.specs.Prelude.{◌≡◌, List, ℕ, true, false, map, nat_le, bytes_eq, if◌then◌else◌, IfOk, IfSome, OnOk};
ghost use Rattle.name_rules.specs.Circles.{declared_by};
ghost use Rattle.name_rules.specs.Rounds.{rank_in, some_use, AreFalling, UsesLower};

use crate::declarations::{Declaration, some_use};
use crate::map::NameMap;
use crate::placing::Placing;
use crate::telling::Telling;
use crate::users::Users;
use std::alloc::{AllocError, Global};

/// Numbers of names; a name without one has 0.
#[derive(Drop)]
pub(crate) struct Ranks<'a> {
    numbers: NameMap<'a, usize>,
}

impl<'a> Ranks<'a> {
    fn rank(&self, name: &str) -> usize
        ensures { result ≡ rank_in self.now name.now }
    {
        match self.numbers.get(name) {
            Some(rank) => rank,
            None => 0,
        }
    }

    fn put(&mut self, name: &'a str, rank: usize) -> Result<(), AllocError>
        ensures { OnOk result ((x : List ℕ) → rank_in self.new x ≡ (if bytes_eq name.now x then rank else rank_in self.old x)) }
    {
        self.numbers.put(name, rank)
    }
}

/// Names above a rank.
#[derive(Clone, Copy)]
pub(crate) struct Above<'a, 'b> {
    ranks: &'a Ranks<'b>,
    bound: usize,
}

impl Telling for Above<'_, '_> {
    ghost use Rattle.name_rules.specs.Rounds.{is_above};

    ghost tells = { is_above };

    fn tells(&self, name: &str) -> bool {
        self.ranks.rank(name) > self.bound
    }
}

/// Ranks by which no declaration uses a name above its own, if there are such, and none where all have their places. They are
/// found by the places that a search by depth leaves.
pub(crate) fn falling_ranks<'a>(
    alloc: Global,
    all: &[Declaration<'a>],
    first: &[usize],
    placing: &Placing,
    users: &Users<'a>,
) -> Result<Option<Ranks<'a>>, AllocError>
    ensures { IfOk result (λ ranks. IfSome ranks (λ r. AreFalling (map declared_by all.now) (rank_in r))) }
{
    if placing.turns.len() == all.len() {
        return Ok(None);
    }
    let ranks = circle_ranks(alloc, all, first, placing.placed.as_slice(), users)?;
    if are_falling(all, &ranks) {
        Ok(Some(ranks))
    } else {
        Ok(None)
    }
}

fn are_falling(all: &[Declaration], ranks: &Ranks) -> bool
    ensures { result ≡ true → AreFalling (map declared_by all.now) (rank_in ranks.now) }
{
    for declaration in all {
        let bound = ranks.rank(declaration.name);
        if some_use(&Above { ranks, bound }, declaration) {
            return false;
        }
    }
    true
}

/// Whether there are such ranks by which a declaration uses lower names alone. Then it is in no circle.
pub(crate) fn is_apart(ranks: Option<&Ranks>, declaration: &Declaration) -> bool
    ensures { result ≡ true → UsesLower ranks.entry (declared_by declaration.now) }
{
    match ranks {
        None => false,
        Some(ranks) => uses_lower(ranks, declaration),
    }
}

fn uses_lower(ranks: &Ranks, declaration: &Declaration) -> bool
    ensures { let d = declared_by declaration.now in
        result ≡ true → some_use (λ z. nat_le (rank_in ranks.now d.name.name) (rank_in ranks.now z)) d ≡ false }
{
    let rank = ranks.rank(declaration.name);
    if rank == 0 {
        return false;
    }
    let bound = rank - 1;
    !some_use(&Above { ranks, bound }, declaration)
}

// From what is left last by a search by depth, one rank to each name that has no place together with all that leads to it
// and has none, and a lower one to the next. So names that lead to each other have one rank, and others a higher one than all
// that they lead to. Nothing but time rests on these numbers, so that no contract is needed: whatever they are, `falling_ranks`
// answers them only if `are_falling` says that no declaration uses a name above its own.
fn circle_ranks<'a>(
    alloc: Global,
    all: &[Declaration<'a>],
    first: &[usize],
    placed: &[bool],
    users: &Users<'a>,
) -> Result<Ranks<'a>, AllocError> {
    let mut ranks = Ranks {
        numbers: NameMap::new(alloc),
    };
    let mut todo = Vec::new(alloc);
    let mut rank = all.len();
    for i in first.iter().rev() {
        if lacks_rank(all, placed, &ranks, *i) {
            give_rank(all, users, rank, *i, &mut todo, &mut ranks)?;
            rank = rank.saturating_sub(1);
        }
    }
    Ok(ranks)
}

// Whether the name declared at this place has neither a place nor a rank.
// No contract is needed: nothing but the numbers that `circle_ranks` gives rests on it.
fn lacks_rank(all: &[Declaration], placed: &[bool], ranks: &Ranks, i: usize) -> bool {
    match (all.get(i), placed.get(i).copied()) {
        (Some(declaration), Some(false)) => ranks.rank(declaration.name) == 0,
        _ => false,
    }
}

// Gives a rank to the name declared at this place, and to those that lead to it, where they have none. Nothing is left to do
// before and after. No contract is needed: nothing but the numbers that `circle_ranks` gives rests on it.
fn give_rank<'a>(
    all: &[Declaration<'a>],
    users: &Users<'a>,
    rank: usize,
    first: usize,
    todo: &mut Vec<usize>,
    ranks: &mut Ranks<'a>,
) -> Result<(), AllocError> {
    todo.push(first)?;
    for _ in 0..usize::MAX {
        let Some(i) = todo.pop() else {
            break;
        };
        if let Some(declaration) = all.get(i)
            && ranks.rank(declaration.name) == 0
        {
            ranks.put(declaration.name, rank)?;
            users.push_users(declaration.name, todo)?;
        }
    }
    Ok(())
}
