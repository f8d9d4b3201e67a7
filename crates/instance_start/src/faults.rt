//! What is wide or wrong in a model under given constants.
ghost use Rattle.std.specs.Prelude.{◌≡◌, ◌++◌, Bool, Some, IfOk, length, map};
ghost use Rattle.std.specs.List.{flat_map, list_any};
ghost use Rattle.std.specs.Option.{option_map};
ghost use Rattle.process_core.specs.Choices.{number_of};
ghost use Rattle.process_core.specs.Instance.{is_outside, is_wide_column, is_wide_domain, is_wide_first, is_wide_instance, range_from, range_lacks};
ghost use Rattle.state_choices.specs.Views.{seen_of};
ghost use Rattle.instance_start.specs.Columns.{bounds_of, range_seen, scene_of, variable_of};
ghost use Rattle.instance_start.specs.Kinds.{column_named, constant_kind, constants_named, domain_kind, first_kind, named, range_kind, value_kind};

use crate::answers::is_wide;
use crate::data::{Bounds, Constant, Range, Variable};
use crate::ranges::{has_value, is_above};
use bridge_io::{List, Text};
use op_trees::{EvalFail, Value};
use process_core::{FaultKind, InstanceFault};
use state_choices::number_of;
use std::alloc::{AllocError, Global};

/// Whether something is wide.
pub(crate) fn has_wide(values: &[Result<Value, EvalFail>], variables: &[Variable]) -> bool
    ensures { (has_condition : Bool) → result ≡ is_wide_instance (scene_of has_condition values.now variables.now) }
{
    has_wide_value(values) || has_wide_variable(variables)
}

fn has_wide_value(values: &[Result<Value, EvalFail>]) -> bool
    ensures { result ≡ list_any (λ s. s.wide) (map seen_of values.now) }
{
    for value in values {
        if is_wide(value) {
            return true;
        }
    }
    false
}

fn has_wide_variable(variables: &[Variable]) -> bool
    ensures { result ≡ list_any is_wide_column (map variable_of variables.now) }
{
    for variable in variables {
        if is_wide_variable(variable) {
            return true;
        }
    }
    false
}

fn is_wide_variable(variable: &Variable) -> bool
    ensures { result ≡ is_wide_column (variable_of variable.now) }
{
    has_wide_bound(&variable.bounds) || is_wide_first(&variable.first)
}

fn is_wide_first(first: &Option<Result<Value, EvalFail>>) -> bool
    ensures { result ≡ is_wide_first (option_map seen_of first.now) }
{
    match first {
        None => false,
        Some(value) => is_wide(value),
    }
}

fn has_wide_bound(bounds: &Option<Bounds>) -> bool
    ensures { result ≡ is_wide_domain (bounds_of bounds.now) }
{
    match bounds {
        None => false,
        Some(bounds) => is_wide(&bounds.low) || is_wide(&bounds.high),
    }
}

/// The faults in order, with the names of the constants and variables that have them; with an initial condition none of
/// first values.
pub(crate) fn faults(
    alloc: Global,
    has_condition: bool,
    constants: &[Constant],
    values: &[Result<Value, EvalFail>],
    variables: &[Variable],
) -> Result<List<InstanceFault>, AllocError>
    requires { length constants.now ≡ length values.now }
    ensures { IfOk result (λ fs. fs ≡ constants_named (map (λ c. c.name.now) constants.now) (map seen_of values.now) ++ flat_map (column_named has_condition) (map variable_of variables.now)) }
{
    let mut all = List::new(alloc);
    add_constants(alloc, constants, values, &mut all)?;
    add_variables(alloc, has_condition, variables, &mut all)?;
    Ok(all)
}

/// Adds those of the constants.
fn add_constants(
    alloc: Global,
    constants: &[Constant],
    values: &[Result<Value, EvalFail>],
    faults: &mut List<InstanceFault>,
) -> Result<(), AllocError>
    requires { length constants.now ≡ length values.now }
    ensures { IfOk result (λ u. faults.new ≡ faults.old ++ constants_named (map (λ c. c.name.now) constants.now) (map seen_of values.now)) }
{
    for (i, constant) in constants.iter().enumerate() {
        add_if(alloc, constant_kind(&values[i]), constant.name, faults)?;
    }
    Ok(())
}

/// Adds those of the variables.
fn add_variables(
    alloc: Global,
    has_condition: bool,
    variables: &[Variable],
    faults: &mut List<InstanceFault>,
) -> Result<(), AllocError>
    ensures { IfOk result (λ u. faults.new ≡ faults.old ++ flat_map (column_named has_condition) (map variable_of variables.now)) }
{
    for variable in variables {
        add_variable(alloc, has_condition, variable, faults)?;
    }
    Ok(())
}

fn add_variable(
    alloc: Global,
    has_condition: bool,
    variable: &Variable,
    faults: &mut List<InstanceFault>,
) -> Result<(), AllocError>
    ensures { IfOk result (λ u. faults.new ≡ faults.old ++ column_named has_condition (variable_of variable.now)) }
{
    add_if(alloc, domain_kind(&variable.bounds), variable.name, faults)?;
    let first = first_kind(has_condition, &variable.bounds, &variable.first);
    add_if(alloc, first, variable.name, faults)
}

/// Adds a fault, if there is one.
fn add_if(
    alloc: Global,
    kind: Option<FaultKind>,
    name: &Text,
    faults: &mut List<InstanceFault>,
) -> Result<(), AllocError>
    ensures { IfOk result (λ u. faults.new ≡ faults.old ++ named name.now kind) }
{
    match kind {
        None => Ok(()),
        Some(kind) => {
            let name = Text::copy_of(alloc, name.as_str())?;
            faults.push(InstanceFault { kind, name })
        }
    }
}

fn constant_kind(value: &Result<Value, EvalFail>) -> Option<FaultKind>
    ensures { result ≡ constant_kind (seen_of value.now) }
{
    match value {
        Ok(_) => None,
        Err(_) => Some(FaultKind::ConstUndef),
    }
}

fn domain_kind(bounds: &Option<Bounds>) -> Option<FaultKind>
    ensures { result ≡ domain_kind (bounds_of bounds.now) }
{
    match bounds {
        None => None,
        Some(bounds) => match range_of(bounds) {
            None => Some(FaultKind::BoundUndef),
            Some(range) => empty_kind(range),
        },
    }
}

fn empty_kind(range: Range) -> Option<FaultKind>
    ensures { result ≡ range_kind (Some (range_seen range)) }
{
    if is_above(range.low, range.high) {
        Some(FaultKind::EmptyRange)
    } else {
        None
    }
}

fn first_kind(
    has_condition: bool,
    bounds: &Option<Bounds>,
    first: &Option<Result<Value, EvalFail>>,
) -> Option<FaultKind>
    ensures { result ≡ first_kind has_condition (bounds_of bounds.now) (option_map seen_of first.now) }
{
    if has_condition {
        return None;
    }
    match first {
        None => None,
        Some(value) => value_kind(bounds, value),
    }
}

fn value_kind(bounds: &Option<Bounds>, value: &Result<Value, EvalFail>) -> Option<FaultKind>
    ensures { result ≡ value_kind (bounds_of bounds.now) (seen_of value.now).value }
{
    match value {
        Err(_) => Some(FaultKind::InitUndef),
        Ok(value) => {
            if is_outside(bounds, *value) {
                Some(FaultKind::InitOutside)
            } else {
                None
            }
        }
    }
}

/// Whether a value is outside a range that is defined and not empty.
fn is_outside(bounds: &Option<Bounds>, value: Value) -> bool
    ensures { result ≡ is_outside (bounds_of bounds.now) value }
{
    match bounds {
        None => false,
        Some(bounds) => match range_of(bounds) {
            None => false,
            Some(range) => lacks(range, value),
        },
    }
}

fn lacks(range: Range, value: Value) -> bool
    ensures { result ≡ range_lacks (Some (range_seen range)) value }
{
    !is_above(range.low, range.high) && !has_value(range.low, range.high, value)
}

/// The range between two bounds, where both are defined.
pub(crate) fn range_of(bounds: &Bounds) -> Option<Range>
    ensures { option_map range_seen result ≡ range_from (seen_of bounds.now.low) (seen_of bounds.now.high) }
{
    match number_of(bounds.low) {
        None => None,
        Some(low) => match number_of(bounds.high) {
            None => None,
            Some(high) => Some(Range { low, high }),
        },
    }
}
