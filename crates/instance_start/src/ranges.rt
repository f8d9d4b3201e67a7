//! Which values a variable may have.
ghost use Rattle.std.specs.Prelude.{◌≡◌, IfOk, map};
ghost use Rattle.frac_core.specs.Fraction.{is_whole};
ghost use Rattle.process_core.specs.Choices.{all_defined};
ghost use Rattle.process_core.specs.Equal.{equal_values};
ghost use Rattle.process_core.specs.Instance.{begin_all, domain_at, first_value, fits_in, has_value, is_above, is_first, is_in, is_state, may_begin};
ghost use Rattle.state_choices.specs.Views.{seen_of};
ghost use Rattle.instance_start.specs.Columns.{column_of, domain_of, first_of};

use crate::data::{Column, Domain, First};
use bridge_io::List;
use frac_core::Frac;
use op_trees::{EvalFail, Value};
use std::alloc::{AllocError, Global};
use std::cmp::Ordering;

/// Whether a number is above another.
pub(crate) fn is_above(x: Frac, y: Frac) -> bool
    ensures { result ≡ is_above x y }
{
    match x.cmp(y) {
        Ordering::Greater => true,
        _ => false,
    }
}

/// Whether a number is a whole one.
pub(crate) fn is_whole(x: Frac) -> bool
    ensures { result ≡ is_whole x }
{
    x.den() == 1
}

/// Whether a value is a whole number between two bounds.
pub(crate) fn has_value(low: Frac, high: Frac, value: Value) -> bool
    ensures { result ≡ has_value (record { low = low; high = high }) value }
{
    match value {
        Value::Truth(_) => false,
        Value::Number(x) => is_whole(x) && !is_above(low, x) && !is_above(x, high),
    }
}

/// Whether a value is one of the domain.
pub fn is_in(domain: Domain, value: Value) -> bool
    ensures { result ≡ is_in (domain_of domain) value }
{
    match domain {
        Domain::Truths => match value {
            Value::Truth(_) => true,
            Value::Number(_) => false,
        },
        Domain::Between(low, high) => has_value(low, high, value),
    }
}

/// Whether a value, if there is one, is one of the domain.
pub fn fits_in(domain: Domain, value: &Result<Value, EvalFail>) -> bool
    ensures { result ≡ fits_in (domain_of domain) (seen_of value.now).value }
{
    match value {
        Ok(v) => is_in(domain, *v),
        Err(_) => false,
    }
}

/// The values of the variable of this number.
pub fn domain_at(columns: &[Column], place: usize) -> Domain
    ensures { domain_of result ≡ domain_at (map column_of columns.now) place }
{
    if place < columns.len() {
        columns[place].domain
    } else {
        Domain::Truths
    }
}

/// Whether two values are the same.
pub fn equal_values(a: Value, b: Value) -> bool
    ensures { result ≡ equal_values a b }
{
    match a {
        Value::Truth(x) => match b {
            Value::Truth(y) => x == y,
            Value::Number(_) => false,
        },
        Value::Number(x) => match b {
            Value::Truth(_) => false,
            Value::Number(y) => x == y,
        },
    }
}

/// Whether each variable has a value of its own.
pub fn is_state(columns: &[Column], s: &[Value]) -> bool
    ensures { result ≡ is_state (map column_of columns.now) s.now }
{
    if columns.len() != s.len() {
        return false;
    }
    for (i, column) in columns.iter().enumerate() {
        if !is_in(column.domain, s[i]) {
            return false;
        }
    }
    true
}

/// Whether a variable may begin with a value.
fn is_first(first: &First, value: Value) -> bool
    ensures { result ≡ is_first (first_of first.now) value }
{
    match first {
        First::Any => true,
        First::Nothing => false,
        First::Only(one) => equal_values(*one, value),
    }
}

/// Whether each variable may begin with its value.
fn begin_all(columns: &[Column], s: &[Value]) -> bool
    ensures { result ≡ begin_all (map column_of columns.now) s.now }
{
    if columns.len() != s.len() {
        return false;
    }
    for (i, column) in columns.iter().enumerate() {
        if !is_first(&column.first, s[i]) {
            return false;
        }
    }
    true
}

/// Whether this is a state that is initial if the initial condition holds there.
pub fn may_begin(columns: &[Column], s: &[Value]) -> bool
    ensures { result ≡ may_begin (map column_of columns.now) s.now }
{
    is_state(columns, s) && begin_all(columns, s)
}

/// The one value that a variable may begin with, if there is one.
fn first_value(column: &Column) -> Option<Value>
    ensures { result ≡ first_value (column_of column.now) }
{
    match column.first {
        First::Only(value) => Some(value),
        _ => None,
    }
}

/// The values that the variables begin with, where each has one.
pub fn first_values(alloc: Global, columns: &[Column]) -> Result<Option<List<Value>>, AllocError>
    ensures { IfOk result (λ s. s ≡ all_defined (map first_value (map column_of columns.now))) }
{
    let mut values = List::with_capacity(alloc, columns.len())?;
    for column in columns {
        match first_value(column) {
            None => return Ok(None),
            Some(value) => values.push(value)?,
        }
    }
    Ok(Some(values))
}
