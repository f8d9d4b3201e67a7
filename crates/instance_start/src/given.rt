//! Values that are given for the constants that a file leaves open.
ghost use Rattle.std.specs.Prelude.{◌≡◌, List, ℕ, map, is_none, ◌&&◌, IfOk, OnOk, Some};
ghost use Rattle.std.specs.List.{list_any};
ghost use Rattle.std.specs.Option.{option_map};
ghost use Rattle.frac_core.specs.Fraction.{is_whole};
ghost use Rattle.name_rules.specs.Names.{under};
ghost use Rattle.instance_start.specs.Columns.{constant_of};
ghost use Rattle.instance_start.specs.Given.{constant_called, given_by, is_missing, is_taken, misfit, takes};

use crate::data::Constant;
use crate::ranges::is_whole;
use name_rules::NameMap;
use op_trees::{Ty, Value};
use process_core::Given;
use std::alloc::{AllocError, Global};

/// The first given value that no open constant takes; at their count, that an open constant isn't given; or none. `Err` is
/// want of memory.
pub fn misfit(
    alloc: Global,
    constants: &[Constant],
    given: &[Given],
) -> Result<Option<usize>, AllocError>
    ensures { IfOk result (λ first. first ≡ misfit (map constant_of constants.now) given.now) }
{
    let called = constants_called(alloc, constants)?;
    let values = given_values(alloc, given)?;
    Ok(first_misfit(constants, given, &called, &values))
}

/// The first constant of each name.
fn constants_called<'a>(
    alloc: Global,
    constants: &[Constant<'a>],
) -> Result<NameMap<'a, Constant<'a>>, AllocError>
    ensures { IfOk result (λ m. (x : List ℕ) → option_map constant_of (under m x) ≡ constant_called (map constant_of constants.now) x) }
{
    let mut called = NameMap::new(alloc);
    for constant in constants {
        called.put_first(constant.name.as_str(), *constant)?;
    }
    Ok(called)
}

/// The first value that is given for each name. `Err` is want of memory.
pub fn given_values<'a>(alloc: Global, given: &'a [Given]) -> Result<NameMap<'a, Value>, AllocError>
    ensures { IfOk result (λ m. under m ≡ given_by given.entry.now) }
{
    let mut values = NameMap::new(alloc);
    for one in given {
        values.put_first(one.name.as_str(), one.value)?;
    }
    Ok(values)
}

/// The first misfit, by the constants and the given values of each name.
fn first_misfit(
    constants: &[Constant],
    given: &[Given],
    called: &NameMap<Constant>,
    values: &NameMap<Value>,
) -> Option<usize>
    requires called { (x : List ℕ) → option_map constant_of (under called.now x) ≡ constant_called (map constant_of constants.now) x }
    requires values { under values.now ≡ given_by given.now }
    ensures { result ≡ misfit (map constant_of constants.now) given.now }
{
    for (i, one) in given.iter().enumerate() {
        if !fits(called, one) {
            return Some(i);
        }
    }
    if has_missing(constants, values) {
        Some(given.len())
    } else {
        None
    }
}

/// Whether the constant is there, is left open, and takes the value.
fn fits(called: &NameMap<Constant>, one: &Given) -> bool
    ensures { result ≡ is_taken (option_map constant_of (under called.now one.now.name)) one.now.value }
{
    match called.get(one.name.as_str()) {
        Some(constant) => constant.is_open && takes(constant.ty, one.value),
        None => false,
    }
}

/// Whether a constant of this type takes the value: a real one takes every number, an int a whole one.
fn takes(ty: Ty, value: Value) -> bool
    ensures { result ≡ takes ty value }
{
    match value {
        Value::Truth(_) => match ty {
            Ty::Bool => true,
            _ => false,
        },
        Value::Number(q) => match ty {
            Ty::Bool => false,
            Ty::Int => is_whole(q),
            Ty::Real => true,
        },
    }
}

/// Whether an open constant isn't given.
fn has_missing(constants: &[Constant], values: &NameMap<Value>) -> bool
    ensures { result ≡ list_any (λ c. c.is_open && is_none (under values.now c.name)) (map constant_of constants.now) }
{
    for constant in constants {
        if constant.is_open && values.get(constant.name.as_str()).is_none() {
            return true;
        }
    }
    false
}
