//! Where a model begins: the initial locations of its elements, and the condition on initial states.
ghost use Rattle.std.specs.Prelude.{◌≡◌, ◌||◌, Err, IfOk, Ok, OnOk, [], if◌then◌else◌, map, unwrap_or};
ghost use Rattle.std.specs.List.{list_any};
ghost use Rattle.std.specs.Option.{option_map};
ghost use Rattle.op_trees.specs.Seen.{Seen};
ghost use Rattle.op_trees.specs.Tree.{tree};
ghost use Rattle.name_rules.specs.Names.{under};
ghost use Rattle.process_core.specs.Choices.{is_true};
ghost use Rattle.state_choices.specs.Trimmed.{computed};
ghost use Rattle.jani_tree.specs.Syntax.{file_of};
ghost use Rattle.jani_meaning.specs.Elements.{elements, has_several_starts, lasting};
ghost use Rattle.jani_meaning.specs.Scene.{begins_anywhere, has_condition};
ghost use Rattle.jani_instance.specs.Initial.{all_begin, condition_from, entered, initial_table, may_begin, table_in, table_with};
ghost use Rattle.jani_instance.specs.Parts.{automaton_at, owned_at};
ghost use Rattle.jani_instance.specs.Views.{location_at, seen_in};

use crate::acting::location_numbers;
use crate::columns::has_several_starts;
use crate::data::InitialLocations;
use crate::parts::{Owned, Part, initial, locations};
use crate::run::{Run, location_at, value_of};
use bridge_io::Named;
use jani_tree::{JaniExpr, JaniFile};
use name_rules::NameMap;
use op_trees::{EvalFail, Value};
use process_core::InitialWide;
use std::alloc::{AllocError, Global};

/// Whether a model has an initial condition: a restriction, an element that may begin in several locations, or a variable that may
/// begin with any value.
pub(crate) fn has_condition(file: &JaniFile, parts: &[Part], vars: &[Owned]) -> bool
    requires parts { map automaton_at parts.now ≡ elements (file_of file.now) }
    requires vars { map owned_at vars.now ≡ lasting (file_of file.now) }
    ensures { result ≡ has_condition (file_of file.now) }
{
    file.restrict.is_some() || begins_openly(parts, vars)
}

/// Whether an element may begin in several locations, or a variable with any value.
fn begins_openly(parts: &[Part], vars: &[Owned]) -> bool
    ensures { result ≡ (list_any (λ p. has_several_starts (automaton_at p)) parts.now || list_any (λ o. begins_anywhere (owned_at o)) vars.now) }
{
    some_several(parts) || some_anywhere(vars)
}

fn some_several(parts: &[Part]) -> bool
    ensures { result ≡ list_any (λ p. has_several_starts (automaton_at p)) parts.now }
{
    parts.iter().any(|p| has_several_starts(*p))
}

fn some_anywhere(vars: &[Owned]) -> bool
    ensures { result ≡ list_any (λ o. begins_anywhere (owned_at o)) vars.now }
{
    vars.iter().any(|o| o.var.start.is_none())
}

/// The initial locations of each element.
pub(crate) fn initial_locations(
    alloc: Global,
    parts: &[Part],
) -> Result<Vec<InitialLocations>, AllocError>
    ensures { IfOk result (λ ls. map table_in ls.items ≡ map initial_table (map automaton_at parts.now)) }
{
    let mut all = Vec::with_capacity(alloc, parts.len())?;
    for part in parts {
        all.push(initial_of(alloc, *part)?)?;
    }
    Ok(all)
}

fn initial_of(alloc: Global, part: Part) -> Result<InitialLocations, AllocError>
    ensures { IfOk result (λ l. table_in l ≡ initial_table (automaton_at part.entry)) }
{
    if !has_several_starts(part) {
        let table = Vec::new(alloc);
        return Ok(InitialLocations { table });
    }
    let by_name = location_numbers(alloc, locations(part))?;
    let table = table_of(alloc, initial(part), &by_name)?;
    Ok(InitialLocations { table })
}

/// The table of the numbers of locations, by their names.
fn table_of(
    alloc: Global,
    names: &[Named],
    by_name: &NameMap<usize>,
) -> Result<Vec<bool>, AllocError>
    ensures { IfOk result (λ t. t.items ≡ table_with (map (λ n. unwrap_or (under by_name.now n.name) 0) names.now) []) }
{
    let mut table = Vec::new(alloc);
    for name in names {
        enter(&mut table, by_name.get(name.name.as_str()).unwrap_or(0))?;
    }
    Ok(table)
}

/// Enters a number into a table, which grows where it is too short.
fn enter(table: &mut Vec<bool>, number: usize) -> Result<(), AllocError>
    ensures { OnOk result (table.new.items ≡ entered number table.old.items) }
{
    while table.len() <= number {
        table.push(false)?;
    }
    table[number] = true;
    Ok(())
}

/// What the condition on initial states comes out as in a state: false where an element is in none of its initial locations, else what
/// the restriction does. It takes no memory.
pub(crate) fn condition(
    restrict: &Option<JaniExpr>,
    locations: &[InitialLocations],
    run: &Run,
) -> Result<Value, EvalFail>
    ensures { result ≡ computed (condition_from (option_map tree restrict.now) (map table_in locations.now) (seen_in run.now) run.now.values.now) }
{
    if !all_begin(locations, run.values) {
        return Ok(Value::Truth(false));
    }
    match restrict {
        Some(e) => value_of(e, run),
        None => Ok(Value::Truth(true)),
    }
}

/// Whether each element is in one of its initial locations.
fn all_begin(locations: &[InitialLocations], values: &[Value]) -> bool
    ensures { result ≡ all_begin (location_at values.now) 0 (map table_in locations.now) }
{
    for (i, one) in locations.iter().enumerate() {
        if !may_begin(location_at(values, i), one.table.as_slice()) {
            return false;
        }
    }
    true
}

/// Whether an element with this table may begin in a location.
fn may_begin(location: usize, table: &[bool]) -> bool
    ensures { result ≡ may_begin location table.now }
{
    if table.len() == 0 {
        true
    } else {
        location < table.len() && table[location]
    }
}

/// Whether a condition holds that comes out so, or that it is wide.
pub(crate) fn holds(condition: Result<Value, EvalFail>) -> Result<bool, InitialWide>
    ensures { (c : Seen) → condition ≡ computed c → result ≡ (if c.wide then Err (record {}) else Ok (is_true c.value)) }
{
    match condition {
        Ok(Value::Truth(b)) => Ok(b),
        Ok(Value::Number(_)) => Ok(false),
        Err(EvalFail::Undef) => Ok(false),
        Err(EvalFail::Wide) => Err(InitialWide),
    }
}
