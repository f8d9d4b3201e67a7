//! What the groups of combinations come out as at a state.
ghost use Rattle.std.specs.Prelude.{◌≡◌, ◌++◌, ℕ, IfOk, map};
ghost use Rattle.gathering.specs.Lists.{list_for};
ghost use Rattle.instance_start.specs.Numbered.{of_number};
ghost use Rattle.state_choices.specs.Views as choices;
ghost use Rattle.jani_instance.specs.Views.{IsIn, acting_seen, columns_of, groups_of, located_seen, look_at, member_of, member_seen, members_seen, part_at, part_of, setting_of, silent_group};

use crate::data::{Acting, Element, Evaluated, Link, Located, Vector};
use crate::edges::{command_of, commands};
use crate::run::{Here, location_at};
use bridge_io::List;
use expr_store::{Evaluation, ExprId};
use frac_core::Frac;
use gathering::NumberLists;
use jani_table::JaniOp;
use op_trees::EvalFail;
use state_choices::{Command, Group};
use std::alloc::{AllocError, Global};

/// What the edges of each element at its current location come out as.
pub(crate) fn members(
    alloc: Global,
    here: &Here,
    evaluation: &mut Evaluation<JaniOp>,
) -> Result<Vec<Evaluated>, AllocError>
    requires { IsIn (setting_of here.now) evaluation.old }
    ensures { IfOk result (λ ms. map member_of ms.items ≡ members_seen (setting_of here.now)) }
{
    let elements = here.elements;
    let mut all = Vec::with_capacity(alloc, elements.len())?;
    for (i, element) in elements.iter().enumerate() {
        all.push(member(alloc, i, element, here, evaluation)?)?;
    }
    Ok(all)
}

/// What the edges of an element come out as.
fn member(
    alloc: Global,
    i: usize,
    element: &Element,
    here: &Here,
    evaluation: &mut Evaluation<JaniOp>,
) -> Result<Evaluated, AllocError>
    requires { IsIn (setting_of here.now) evaluation.old }
    ensures { IfOk result (λ m. IsIn (setting_of here.now) evaluation.new × (member_of m ≡ member_seen (setting_of here.now) i element.now)) }
{
    match element.locations.get(location_at(here.values, i)) {
        Some(located) => evaluated(alloc, located, i, here, evaluation),
        None => Ok(Evaluated {
            silent: List::new(alloc),
            acting: NumberLists::new(alloc),
            actions: 0,
        }),
    }
}

/// What the edges of a location come out as.
fn evaluated(
    alloc: Global,
    located: &Located<ExprId>,
    i: usize,
    here: &Here,
    evaluation: &mut Evaluation<JaniOp>,
) -> Result<Evaluated, AllocError>
    requires { IsIn (setting_of here.now) evaluation.old }
    ensures { IfOk result (λ m. IsIn (setting_of here.now) evaluation.new
        × (member_of m ≡ located_seen (columns_of (setting_of here.now)) (look_at (setting_of here.now)) i (Some located.now))) }
{
    let silent = commands(alloc, located.silent.as_slice(), i, here, evaluation)?;
    let acting = acting(alloc, located.acting.as_slice(), i, here, evaluation)?;
    Ok(Evaluated {
        silent,
        acting,
        actions: located.actions,
    })
}

/// What the edges of each action come out as.
fn acting(
    alloc: Global,
    these: &[Acting<ExprId>],
    i: usize,
    here: &Here,
    evaluation: &mut Evaluation<JaniOp>,
) -> Result<NumberLists<Command>, AllocError>
    requires { IsIn (setting_of here.now) evaluation.old }
    ensures { IfOk result (λ ls. IsIn (setting_of here.now) evaluation.new
        × ((k : ℕ) → map choices.command_of (list_for ls k) ≡ of_number k (map (acting_seen (columns_of (setting_of here.now)) (look_at (setting_of here.now)) i) these.now))) }
{
    let mut all = NumberLists::new(alloc);
    for one in these {
        let command = command_of(alloc, &one.edge, i, here, evaluation)?;
        all.add(alloc, one.action, command)?;
    }
    Ok(all)
}

/// The groups: the silent edges of each element, then for each vector the edges that it names.
pub(crate) fn groups<'a>(
    alloc: Global,
    rewards: &'a [Result<Frac, EvalFail>],
    members: &'a [Evaluated],
    vectors: &'a [Vector<'a>],
) -> Result<Vec<Group<'a>>, AllocError>
    ensures { IfOk result (λ gs. map choices.group_of gs.items ≡ groups_of (map choices.sum_of rewards.now) (map member_of members.now) vectors.now) }
{
    let mut groups = silent_groups(alloc, rewards, members, vectors.len())?;
    for vector in vectors {
        groups.push(Group {
            label: vector.label,
            rewards,
            lists: lists(alloc, vector.links.as_slice(), members)?,
        })?;
    }
    Ok(groups)
}

/// The silent edges of each element, with room for so many groups more.
fn silent_groups<'a>(
    alloc: Global,
    rewards: &'a [Result<Frac, EvalFail>],
    members: &'a [Evaluated],
    more: usize,
) -> Result<Vec<Group<'a>>, AllocError>
    ensures { IfOk result (λ gs. map choices.group_of gs.items ≡ map (silent_group (map choices.sum_of rewards.now)) (map member_of members.now)) }
{
    let mut groups = Vec::with_capacity(alloc, members.len().saturating_add(more))?;
    for member in members {
        let mut lists = Vec::with_capacity(alloc, 1)?;
        lists.push(member.silent.as_slice())?;
        groups.push(Group {
            label: None,
            rewards,
            lists,
        })?;
    }
    Ok(groups)
}

/// Of each element that takes part, the edges with its action.
fn lists<'a>(
    alloc: Global,
    links: &[Link],
    members: &'a [Evaluated],
) -> Result<Vec<&'a [Command]>, AllocError>
    ensures { IfOk result (λ ls. map (λ l. map choices.command_of l.now) ls.items ≡ map (part_at (map member_of members.now)) links.now) }
{
    let mut all = Vec::with_capacity(alloc, links.len())?;
    for link in links {
        all.push(part_at(members, *link))?;
    }
    Ok(all)
}

/// The edges of an element with one of its actions.
fn part_at<'a>(members: &'a [Evaluated], link: Link) -> &'a [Command]
    ensures { map choices.command_of result.now ≡ part_at (map member_of members.entry.now) link }
{
    match members.get(link.element) {
        Some(member) => part_of(member, link.part),
        None => &[],
    }
}

fn part_of(member: &Evaluated, part: usize) -> &[Command]
    ensures { map choices.command_of result.now ≡ part_of (Some (member_of member.entry.now)) part }
{
    if part < member.actions {
        member.acting.get(part)
    } else {
        &[]
    }
}
