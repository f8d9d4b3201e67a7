//! The columns of a model that starts, or why it doesn't.
ghost use Rattle.std.specs.Prelude.{◌≡◌, IfOk, MatchResult, length, map};
ghost use Rattle.process_core.specs.Instance.{Scene};
ghost use Rattle.state_choices.specs.Trimmed.{trimmed_seen};
ghost use Rattle.state_choices.specs.Views.{seen_of};
ghost use Rattle.instance_start.specs.Columns.{AreColumns, bounds_of, column_of, constant_of, range_of, settled_column, settled_domain, settled_first, IsMemory, trimmed_column, variable_of};
ghost use Rattle.instance_start.specs.Started.{FailsIn};

use crate::data::{Bounds, Column, Constant, Domain, First, Variable};
use crate::faults::{faults, has_wide, range_of};
use op_trees::{EvalFail, Value};
use process_core::StartFail;
use std::alloc::{AllocError, Global};

/// The columns of a model, from what its constants and its variables come out as, and whether it has an initial condition.
/// `Wide` where something is wide, else the faults in order, if there are any.
pub fn columns<'a>(
    alloc: Global,
    has_condition: bool,
    constants: &[Constant<'a>],
    values: &[Result<Value, EvalFail>],
    variables: &[Variable<'a>],
) -> Result<Vec<Column<'a>>, StartFail>
    requires { length constants.now ≡ length values.now }
    ensures { (k : Scene) → has_condition ≡ k.has_condition → map seen_of values.now ≡ map trimmed_seen k.constants → map variable_of variables.now ≡ map trimmed_column k.columns →
        MatchResult result (λ cs. AreColumns k (map column_of cs.items)) (λ fail. FailsIn (map constant_of constants.now) k fail) }
{
    if has_wide(values, variables) {
        return Err(StartFail::Wide);
    }
    match faults(alloc, has_condition, constants, values, variables) {
        Err(e) => Err(StartFail::Memory(e)),
        Ok(faults) => {
            if faults.len() == 0 {
                settled_columns(alloc, variables)
            } else {
                Err(StartFail::Faults(faults))
            }
        }
    }
}

/// The columns, where no bound is undefined.
fn settled_columns<'a>(
    alloc: Global,
    variables: &[Variable<'a>],
) -> Result<Vec<Column<'a>>, StartFail>
    ensures { MatchResult result (λ cs. cs.items ≡ map settled_column variables.now) IsMemory }
{
    match each_settled(alloc, variables) {
        Ok(columns) => Ok(columns),
        Err(e) => Err(StartFail::Memory(e)),
    }
}

fn each_settled<'a>(
    alloc: Global,
    variables: &[Variable<'a>],
) -> Result<Vec<Column<'a>>, AllocError>
    ensures { IfOk result (λ cs. cs.items ≡ map settled_column variables.now) }
{
    variables.iter().map(|v| settled_column(v)).collect(alloc)
}

fn settled_column<'a>(variable: &Variable<'a>) -> Column<'a>
    ensures { result ≡ settled_column variable.now }
{
    Column {
        name: variable.name,
        domain: settled_domain(&variable.bounds),
        first: settled_first(&variable.first),
    }
}

fn settled_domain(bounds: &Option<Bounds>) -> Domain
    ensures { result ≡ settled_domain (range_of (bounds_of bounds.now)) }
{
    match bounds {
        None => Domain::Truths,
        Some(bounds) => match range_of(bounds) {
            None => Domain::Truths,
            Some(range) => Domain::Between(range.low, range.high),
        },
    }
}

fn settled_first(first: &Option<Result<Value, EvalFail>>) -> First
    ensures { result ≡ settled_first first.now }
{
    match first {
        None => First::Any,
        Some(Ok(value)) => First::Only(*value),
        Some(Err(_)) => First::Nothing,
    }
}
