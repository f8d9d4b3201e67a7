//! The columns of a file, as they come out under the values of its constants.
ghost use Rattle.std.specs.Prelude.{◌≡◌, ◌++◌, ◌-◌, IfOk, bytes_eq, length, map, pos};
ghost use Rattle.std.specs.List.{position};
ghost use Rattle.std.specs.Option.{option_map};
ghost use Rattle.frac_core.specs.Fraction.{whole};
ghost use Rattle.frac_core.specs.Results.{narrow};
ghost use Rattle.op_trees.specs.Tree.{tree};
ghost use Rattle.state_choices.specs.Trimmed.{computed};
ghost use Rattle.jani_tree.specs.Syntax.{kind_of, var_of};
ghost use Rattle.jani_meaning.specs.Elements.{has_several_starts, initial_number, location_number};
ghost use Rattle.jani_meaning.specs.Scene.{column, counted, domain_of, first_location, first_of, location_column, start_of};
ghost use Rattle.instance_start.specs.Columns.{bounds_of, trimmed_column, trimmed_domain, variable_of};
ghost use Rattle.jani_instance.specs.Parts.{automaton_at, owned_at};
ghost use Rattle.jani_instance.specs.Views.{seen_in};

use crate::parts::{Owned, Part, initial, locations};
use crate::run::{Run, value_of};
use bridge_io::{List, Text};
use frac_core::{Frac, FracFail};
use instance_start::{Bounds, Variable};
use jani_tree::{JaniExpr, JaniKind, JaniLocation, JaniVar};
use op_trees::{EvalFail, Value};
use std::alloc::{AllocError, Global};

/// A natural number as a value.
pub(crate) fn counted(n: usize) -> Result<Value, EvalFail>
    ensures { result ≡ computed (counted n) }
{
    match whole(n) {
        Ok(q) => Ok(Value::Number(q)),
        Err(_) => Err(EvalFail::Wide),
    }
}

fn whole(n: usize) -> Result<Frac, FracFail>
    ensures { result ≡ narrow (whole (pos n)) }
{
    if n >= 1 << 62 {
        return Err(FracFail::Wide);
    }
    Frac::new(n as i64, 1)
}

/// The number of the first location of this name.
fn place_in(locations: &[JaniLocation], name: &str) -> Option<usize>
    ensures { result ≡ position (λ l. bytes_eq l.name.name name.now) locations.now }
{
    locations.iter().position(|l| l.name.name.as_str() == name)
}

/// The number of a location of the element.
pub(crate) fn location_number(part: Part, name: &str) -> usize
    ensures { result ≡ location_number (automaton_at part.entry) name.now }
{
    place_in(locations(part), name).unwrap_or(0)
}

/// The number of the location that the element begins in.
fn initial_number(part: Part) -> usize
    ensures { result ≡ initial_number (automaton_at part.entry) }
{
    match initial(part).first() {
        Some(name) => location_number(part, name.name.as_str()),
        None => 0,
    }
}

/// Whether the element may begin in several locations.
pub(crate) fn has_several_starts(part: Part) -> bool
    ensures { result ≡ has_several_starts (automaton_at part.entry) }
{
    initial(part).get(1).is_some()
}

/// The location that the element begins in, if there is but one.
fn first_location(part: Part) -> Option<Result<Value, EvalFail>>
    ensures { result ≡ option_map computed (first_location (automaton_at part.entry) (has_several_starts (automaton_at part.entry))) }
{
    if has_several_starts(part) {
        return None;
    }
    Some(counted(initial_number(part)))
}

/// The number of the element's last location.
pub(crate) fn last_number(part: Part) -> usize
    ensures { result ≡ length (automaton_at part.entry).locations - 1 }
{
    locations(part).len().saturating_sub(1)
}

/// The name of the element's automaton.
fn name_of<'a, 'e>(part: Part<'a, 'e>) -> &'a Text
    ensures { result.now ≡ (automaton_at part.entry).name.name }
{
    match part.automaton {
        Some(automaton) => &automaton.name.name,
        None => &part.name.name,
    }
}

/// The location of an element.
fn location_variable<'a, 'e>(part: Part<'a, 'e>) -> Variable<'a>
    ensures { variable_of result ≡ trimmed_column (location_column (automaton_at part.entry)) }
{
    let low = counted(0);
    let high = counted(last_number(part));
    Variable {
        name: name_of(part),
        bounds: Some(Bounds { low, high }),
        first: first_location(part),
    }
}

/// A variable.
fn variable<'a>(var: &'a JaniVar, run: &Run) -> Variable<'a>
    ensures { variable_of result ≡ trimmed_column (column (seen_in run.now) (var_of var.entry.now)) }
{
    Variable {
        name: &var.name.name,
        bounds: bounds(&var.kind, run),
        first: first_of(&var.start, run),
    }
}

/// The bounds of a variable.
fn bounds(kind: &JaniKind, run: &Run) -> Option<Bounds>
    ensures { bounds_of result ≡ trimmed_domain (domain_of (seen_in run.now) (kind_of kind.now)) }
{
    match kind {
        JaniKind::Bounded(low, high) => Some(Bounds {
            low: value_of(low, run),
            high: value_of(high, run),
        }),
        _ => None,
    }
}

/// The value that a variable begins with, if it has one.
fn first_of(e: &Option<JaniExpr>, run: &Run) -> Option<Result<Value, EvalFail>>
    ensures { result ≡ option_map computed (first_of (seen_in run.now) (option_map tree e.now)) }
{
    match e {
        Some(e) => Some(value_of(e, run)),
        None => None,
    }
}

/// The value that a transient variable begins with.
pub(crate) fn start_of(e: &Option<JaniExpr>, run: &Run) -> Result<Value, EvalFail>
    ensures { result ≡ computed (start_of (seen_in run.now) (option_map tree e.now)) }
{
    match e {
        Some(e) => value_of(e, run),
        None => Err(EvalFail::Undef),
    }
}

/// The columns: the locations of the elements, then the variables.
pub(crate) fn variables_of<'a, 'e>(
    alloc: Global,
    parts: &[Part<'a, 'e>],
    lasting: &[Owned<'a>],
    run: &Run,
) -> Result<List<Variable<'a>>, AllocError>
    ensures { IfOk result (λ vs. map variable_of vs
        ≡ map trimmed_column (map location_column (map automaton_at parts.now) ++ map (λ o. column (seen_in run.now) o.var) (map owned_at lasting.now))) }
{
    let mut all = location_variables(alloc, parts)?;
    for o in lasting {
        all.push(variable(o.var, run))?;
    }
    Ok(all)
}

fn location_variables<'a, 'e>(
    alloc: Global,
    parts: &[Part<'a, 'e>],
) -> Result<List<Variable<'a>>, AllocError>
    ensures { IfOk result (λ vs. map variable_of vs ≡ map trimmed_column (map location_column (map automaton_at parts.now))) }
{
    let mut all = List::new(alloc);
    for part in parts {
        all.push(location_variable(*part))?;
    }
    Ok(all)
}
