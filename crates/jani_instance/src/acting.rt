//! The numbers of each element's actions and locations, and what elements and vectors are built of.
ghost use Rattle.std.specs.Prelude.{◌≡◌, ◌+◌, ◌-◌, ◌<◌, ◌≤◌, ◌^◌, ℕ, List, IfOk, OnOk, map, unwrap_or};
ghost use Rattle.std.specs.List.{AllZip, position};
ghost use Rattle.name_rules.specs.Names.{under};
ghost use Rattle.jani_tree.specs.Syntax.{edge_of, location_of};
ghost use Rattle.op_trees.specs.Names.{is_called};
ghost use Rattle.jani_instance.specs.Actions.{AreNumbered, IsNumbered, actions_among, number_in, with_action};
ghost use Rattle.jani_instance.specs.Parts.{automaton_at};

use crate::parts::{Owned, Part, edges, locations};
use instance_start::Place;
use jani_tree::{JaniEdge, JaniFile, JaniLocation};
use name_rules::NameMap;
use std::alloc::{AllocError, Global};

/// The actions of an element: how many, and the number of each, in order of first occurrence.
#[derive(Drop)]
pub(crate) struct ActionTable<'a> {
    pub(crate) count: usize,
    pub(crate) numbers: NameMap<'a, usize>,
}

/// The numbers of an element's actions and of its locations.
#[derive(Drop)]
pub(crate) struct Numbers<'a> {
    pub(crate) actions: ActionTable<'a>,
    pub(crate) locations: NameMap<'a, usize>,
}

/// A file: its elements, the numbers of the actions and locations of each, the variables that are columns, the reward structures,
/// and where global names stand.
#[derive(Clone, Copy)]
pub(crate) struct Basis<'s, 'a> {
    pub(crate) file: &'a JaniFile,
    pub(crate) parts: &'s [Part<'a, 'a>],
    pub(crate) actions: &'s [Numbers<'a>],
    pub(crate) lasting: &'s [Owned<'a>],
    pub(crate) structures: &'s [Owned<'a>],
    pub(crate) places: &'s NameMap<'a, Place>,
}

/// The numbers of the actions and locations of each element.
pub(crate) fn actions<'a>(
    alloc: Global,
    parts: &[Part<'a, 'a>],
) -> Result<Vec<Numbers<'a>>, AllocError>
    ensures { IfOk result (λ ts. AllZip IsNumbered (map automaton_at parts.now) ts.items) }
{
    let mut all = Vec::with_capacity(alloc, parts.len())?;
    for part in parts {
        all.push(numbers_of(alloc, *part)?)?;
    }
    Ok(all)
}

/// The numbers of the actions and locations of an element.
fn numbers_of<'a>(alloc: Global, part: Part<'a, 'a>) -> Result<Numbers<'a>, AllocError>
    ensures { IfOk result (λ t. IsNumbered (automaton_at part.entry) t) }
{
    let actions = actions_among(alloc, edges(part))?;
    let locations = location_numbers(alloc, locations(part))?;
    Ok(Numbers { actions, locations })
}

/// The actions of edges.
fn actions_among<'a>(alloc: Global, these: &'a [JaniEdge]) -> Result<ActionTable<'a>, AllocError>
    ensures { IfOk result (λ t. AreNumbered (actions_among (map edge_of these.entry.now)) t) }
{
    let mut all = ActionTable {
        count: 0,
        numbers: NameMap::new(alloc),
    };
    for edge in these {
        match &edge.action {
            Some(name) => add_action(&mut all, name.name.as_str())?,
            None => {}
        }
    }
    Ok(all)
}

/// An action besides, if it isn't there.
fn add_action<'a>(all: &mut ActionTable<'a>, name: &'a str) -> Result<(), AllocError>
    requires { all.old.count < 2 ^ 64 - 1 }
    ensures bound { OnOk result (all.new.count ≤ all.old.count + 1) }
    ensures numbered { OnOk result ((l : List (List ℕ)) → AreNumbered l all.old → AreNumbered (with_action name.entry.now l) all.new) }
{
    if all.numbers.get(name).is_some() {
        return Ok(());
    }
    all.numbers.put(name, all.count)?;
    all.count += 1;
    Ok(())
}

/// The number of an action; that of all actions where it is none of them.
pub(crate) fn number_of(actions: &ActionTable, name: &str) -> usize
    ensures { result ≡ number_in actions.now name.now }
{
    actions.numbers.get(name).unwrap_or(actions.count)
}

/// The numbers of locations by their names.
pub(crate) fn location_numbers<'a>(
    alloc: Global,
    these: &'a [JaniLocation],
) -> Result<NameMap<'a, usize>, AllocError>
    ensures { IfOk result (λ m. (x : List ℕ) → under m x ≡ position (λ l. is_called x l.name) (map location_of these.entry.now)) }
{
    let mut numbers = NameMap::new(alloc);
    for (k, location) in these.iter().enumerate() {
        numbers.put_first(location.name.name.as_str(), k)?;
    }
    Ok(numbers)
}
