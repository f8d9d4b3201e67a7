// Constants and formulas placed one after another, each after those that it uses.

ghost use Rattle.std.specs.Prelude.{◌≤◌, ℕ, IfOk, OnOk};
ghost use Rattle.name_rules.specs.Rounds.{IsPlaced, IsStuckIn, IsTry, IsTurn};

use crate::declarations::{Declaration, some_use};
use crate::waiting::Waiting;
use bridge_io::together;
use std::alloc::{AllocError, Global};

/// How many of each name wait for their places, which declarations have theirs, and their order.
#[derive(Drop)]
pub(crate) struct Placing<'a> {
    pub(crate) waiting: Waiting<'a>,
    pub(crate) placed: Vec<bool>,
    pub(crate) turns: Vec<usize>,
}

/// All placed that can be: what is left uses something that is left too. Places that come first are tried first.
pub(crate) fn place_all<'a>(
    alloc: Global,
    all: &[Declaration<'a>],
    first: &[usize],
) -> Result<Placing<'a>, AllocError>
    ensures placed { IfOk result (IsPlaced all.now) }
    ensures stuck { IfOk result (IsStuckIn all.now) }
{
    let mut placing = placed_none(alloc, all)?;
    place_each(all, first, &mut placing)?;
    while place_some(all, &mut placing)? {}
    Ok(placing)
}

// None of them placed.
fn placed_none<'a>(alloc: Global, all: &[Declaration<'a>]) -> Result<Placing<'a>, AllocError>
    ensures { IfOk result (IsPlaced all.now) }
{
    let unplaced = vec![in alloc; false; all.len()];
    let (waiting, placed) = together(Waiting::of(alloc, all), unplaced)?;
    Ok(Placing {
        waiting,
        placed,
        turns: Vec::new(alloc),
    })
}

// Places those that can be, in this order.
fn place_each<'a>(
    all: &[Declaration<'a>],
    first: &[usize],
    placing: &mut Placing<'a>,
) -> Result<(), AllocError>
    requires { IsPlaced all.now placing.old }
    ensures { OnOk result (IsPlaced all.now placing.new) }
{
    for i in first {
        try_place(all, *i, placing)?;
    }
    Ok(())
}

// Places those that can be as they stand, and whether there were any.
fn place_some<'a>(all: &[Declaration<'a>], placing: &mut Placing<'a>) -> Result<bool, AllocError>
    requires { IsPlaced all.now placing.old }
    ensures placed { OnOk result (IsPlaced all.now placing.new) }
    ensures turn { IfOk result (IsTurn all.now placing.old placing.new) }
{
    let mut some = false;
    for i in 0..all.len() {
        if try_place(all, i, placing)? {
            some = true;
        }
    }
    Ok(some)
}

// Places a declaration if it uses nothing that is left, and whether it did so.
fn try_place<'a>(
    all: &[Declaration<'a>],
    i: usize,
    placing: &mut Placing<'a>,
) -> Result<bool, AllocError>
    requires { IsPlaced all.now placing.old }
    ensures placed { OnOk result (IsPlaced all.now placing.new) }
    ensures turn { IfOk result (IsTry all.now i placing.old placing.new) }
{
    if i >= all.len() || placing.placed[i] || some_use(&placing.waiting, &all[i]) {
        return Ok(false);
    }
    placing.waiting.less(all[i].name)?;
    placing.placed[i] = true;
    placing.turns.push(i)?;
    Ok(true)
}
