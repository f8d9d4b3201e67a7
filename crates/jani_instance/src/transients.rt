//! The labels and the reward structures, with what locations give to them.
ghost use Rattle.std.specs.Prelude.{◌≡◌, ◌++◌, List as ListOf, ℕ, IfOk, OnOk, map};
ghost use Rattle.std.specs.List.{flat_map};
ghost use Rattle.gathering.specs.Lists.{list_under};
ghost use Rattle.process_core.specs.Instance.{numbered};
ghost use Rattle.jani_tree.specs.Syntax.{location_of, write_of};
ghost use Rattle.jani_instance.specs.Parts.{automaton_at, owned_at};
ghost use Rattle.jani_instance.specs.Transients.{AreGifts, gift_by, gifts_at, gifts_by, given_to, own_list, transient_by};
ghost use Rattle.jani_instance.specs.Shapes.{giver_at, transient_at};
ghost use Rattle.jani_instance.specs.Views.{seen_in};

use crate::columns::start_of;
use crate::data::{Giver, Transient};
use crate::parts::{Owned, Part, locations};
use crate::run::Run;
use gathering::NameLists;
use jani_tree::{JaniExpr, JaniLocation, JaniWrite};
use std::alloc::{AllocError, Global};

/// What locations give, under the names that they give it to: those of all elements, and those of each.
#[derive(Drop)]
pub(crate) struct Gifts<'a> {
    pub(crate) all: NameLists<'a, Giver<&'a JaniExpr>>,
    pub(crate) own: Vec<NameLists<'a, Giver<&'a JaniExpr>>>,
}

/// The labels, then the reward structures.
pub(crate) fn transients<'a, 'e>(
    alloc: Global,
    parts: &[Part<'a, 'e>],
    labels: &[Owned<'a>],
    structures: &[Owned<'a>],
    run: &Run,
) -> Result<Vec<Transient<'a, &'a JaniExpr>>, AllocError>
    ensures { IfOk result (λ ts. map transient_at ts.items
        ≡ map (transient_by (map automaton_at parts.now) (seen_in run.now)) (map owned_at labels.now)
        ++ map (transient_by (map automaton_at parts.now) (seen_in run.now)) (map owned_at structures.now)) }
{
    let gifts = gathered(alloc, parts)?;
    let mut all = Vec::new(alloc);
    add_transients(alloc, &mut all, parts, &gifts, labels, run)?;
    add_transients(alloc, &mut all, parts, &gifts, structures, run)?;
    Ok(all)
}

fn add_transients<'a, 'e>(
    alloc: Global,
    all: &mut Vec<Transient<'a, &'a JaniExpr>>,
    parts: &[Part<'a, 'e>],
    gifts: &Gifts<'a>,
    vars: &[Owned<'a>],
    run: &Run,
) -> Result<(), AllocError>
    requires { AreGifts (map automaton_at parts.now) gifts.now }
    ensures { OnOk result (map transient_at all.new.items
        ≡ map transient_at all.old.items ++ map (transient_by (map automaton_at parts.now) (seen_in run.now)) (map owned_at vars.now)) }
{
    for o in vars {
        all.push(transient(alloc, *o, parts, gifts, run)?)?;
    }
    Ok(())
}

/// A transient variable.
fn transient<'a, 'e>(
    alloc: Global,
    o: Owned<'a>,
    parts: &[Part<'a, 'e>],
    gifts: &Gifts<'a>,
    run: &Run,
) -> Result<Transient<'a, &'a JaniExpr>, AllocError>
    requires { AreGifts (map automaton_at parts.now) gifts.now }
    ensures { IfOk result (λ t. transient_at t ≡ transient_by (map automaton_at parts.now) (seen_in run.now) (owned_at o.entry)) }
{
    let _count = parts.len();
    let givers = given_to(alloc, gifts, o)?;
    Ok(Transient {
        name: &o.var.name.name,
        start: start_of(&o.var.start, run),
        givers,
    })
}

/// What is given to a variable: a global one gets it of all elements, another one of its owner.
fn given_to<'a>(
    alloc: Global,
    gifts: &Gifts<'a>,
    o: Owned<'a>,
) -> Result<Vec<Giver<&'a JaniExpr>>, AllocError>
    ensures { IfOk result (λ gs. gs.items ≡ given_to gifts.now o.entry.owner o.entry.var.now.name.name) }
{
    let name = o.var.name.name.as_str();
    match o.owner {
        None => copied(alloc, gifts.all.get(name)),
        Some(k) => given_by(alloc, gifts.own.as_slice(), k, name),
    }
}

/// What an element gives to a name.
fn given_by<'a>(
    alloc: Global,
    own: &[NameLists<'a, Giver<&'a JaniExpr>>],
    k: usize,
    name: &str,
) -> Result<Vec<Giver<&'a JaniExpr>>, AllocError>
    ensures { IfOk result (λ gs. gs.items ≡ own_list own.now k name.now) }
{
    match own.get(k) {
        Some(lists) => copied(alloc, lists.get(name)),
        None => Ok(Vec::new(alloc)),
    }
}

fn copied<'a>(
    alloc: Global,
    these: &[Giver<&'a JaniExpr>],
) -> Result<Vec<Giver<&'a JaniExpr>>, AllocError>
    ensures { IfOk result (λ gs. gs.items ≡ these.now) }
{
    let mut all = Vec::with_capacity(alloc, these.len())?;
    for one in these {
        all.push(*one)?;
    }
    Ok(all)
}

// ---- what locations give

fn gathered<'a, 'e>(alloc: Global, parts: &[Part<'a, 'e>]) -> Result<Gifts<'a>, AllocError>
    ensures { IfOk result (AreGifts (map automaton_at parts.now)) }
{
    let own = gifts_of_each(alloc, parts)?;
    let all = gifts_of_all(alloc, parts)?;
    Ok(Gifts { all, own })
}

/// What the locations of all elements give.
fn gifts_of_all<'a, 'e>(
    alloc: Global,
    parts: &[Part<'a, 'e>],
) -> Result<NameLists<'a, Giver<&'a JaniExpr>>, AllocError>
    ensures { IfOk result (λ t. (x : ListOf ℕ) → map giver_at (list_under t x) ≡ numbered (gifts_by x) 0 (map automaton_at parts.now)) }
{
    let mut all = NameLists::new(alloc);
    for (i, part) in parts.iter().enumerate() {
        add_element(alloc, i, locations(*part), &mut all)?;
    }
    Ok(all)
}

/// What the locations of each element give.
fn gifts_of_each<'a, 'e>(
    alloc: Global,
    parts: &[Part<'a, 'e>],
) -> Result<Vec<NameLists<'a, Giver<&'a JaniExpr>>>, AllocError>
    ensures { IfOk result (λ ts. (k : ℕ) (x : ListOf ℕ) → map giver_at (own_list ts.items k x) ≡ gifts_at k x (map automaton_at parts.now)) }
{
    let mut all = Vec::with_capacity(alloc, parts.len())?;
    for (i, part) in parts.iter().enumerate() {
        all.push(gifts_of_one(alloc, i, locations(*part))?)?;
    }
    Ok(all)
}

fn gifts_of_one<'a>(
    alloc: Global,
    i: usize,
    locations: &'a [JaniLocation],
) -> Result<NameLists<'a, Giver<&'a JaniExpr>>, AllocError>
    ensures { IfOk result (λ t. (x : ListOf ℕ) → map giver_at (list_under t x) ≡ numbered (λ n l. flat_map (gift_by x i n) l.values) 0 (map location_of locations.now)) }
{
    let mut all = NameLists::new(alloc);
    add_element(alloc, i, locations, &mut all)?;
    Ok(all)
}

/// What the locations of an element give besides.
fn add_element<'a>(
    alloc: Global,
    i: usize,
    locations: &'a [JaniLocation],
    all: &mut NameLists<'a, Giver<&'a JaniExpr>>,
) -> Result<(), AllocError>
    ensures { OnOk result ((x : ListOf ℕ) → map giver_at (list_under all.new x)
        ≡ map giver_at (list_under all.old x) ++ numbered (λ n l. flat_map (gift_by x i n) l.values) 0 (map location_of locations.now)) }
{
    for (n, location) in locations.iter().enumerate() {
        add_location(alloc, i, n, location.values.as_slice(), all)?;
    }
    Ok(())
}

/// What a location gives besides.
fn add_location<'a>(
    alloc: Global,
    i: usize,
    n: usize,
    values: &'a [JaniWrite],
    all: &mut NameLists<'a, Giver<&'a JaniExpr>>,
) -> Result<(), AllocError>
    ensures { OnOk result ((x : ListOf ℕ) → map giver_at (list_under all.new x)
        ≡ map giver_at (list_under all.old x) ++ flat_map (gift_by x i n) (map write_of values.now)) }
{
    for value in values {
        add_value(alloc, i, n, value, all)?;
    }
    Ok(())
}

fn add_value<'a>(
    alloc: Global,
    i: usize,
    n: usize,
    write: &'a JaniWrite,
    all: &mut NameLists<'a, Giver<&'a JaniExpr>>,
) -> Result<(), AllocError>
    ensures { OnOk result ((x : ListOf ℕ) → map giver_at (list_under all.new x) ≡ map giver_at (list_under all.old x) ++ gift_by x i n (write_of write.now)) }
{
    let one = Giver {
        element: i,
        location: n,
        value: &write.value,
    };
    all.add(alloc, write.target.name.as_str(), one)
}
