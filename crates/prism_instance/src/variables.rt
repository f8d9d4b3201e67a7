//! What the variables of a file come out as.
ghost use Rattle.std.specs.Prelude.{◌≡◌, ◌++◌, IfOk, None, map};
ghost use Rattle.std.specs.Option.{option_map};
ghost use Rattle.op_trees.specs.Tree.{tree};
ghost use Rattle.prism_check.specs.Scene.{column, domain_of, first_of, first_under};
ghost use Rattle.prism_names.specs.Names.{unchanged};
ghost use Rattle.prism_tree.specs.Syntax as syntax;
ghost use Rattle.prism_tree.specs.Syntax.{file_of, module_of, var_of};
ghost use Rattle.state_choices.specs.Trimmed.{trimmed_seen};
ghost use Rattle.state_choices.specs.Views.{seen_of};
ghost use Rattle.instance_start.specs.Columns.{bounds_of, trimmed_column, trimmed_domain, variable_of};
ghost use Rattle.prism_instance.specs.Variables.{all_variables, own_variables, vars_of};
ghost use Rattle.prism_instance.specs.Found.{column_with, found_column, named_variable};
ghost use Rattle.prism_instance.specs.Views.{seen_in};

use crate::constant_names::{ConstantNames, value_of};
use bridge_io::Text;
use instance_start::{Bounds, Variable};
use op_trees::{EvalFail, Value};
use prism_tree::{PrismFile, PrismModule, PrismRange, PrismVar};
use std::alloc::{AllocError, Global};

/// The variables: the global ones, then those of the modules.
pub(crate) fn all_variables(alloc: Global, file: &PrismFile) -> Result<Vec<&PrismVar>, AllocError>
    ensures { IfOk result (λ xs. vars_of xs.items ≡ all_variables (file_of file.now)) }
{
    let mut all = Vec::new(alloc);
    add_variables(file.globals.as_slice(), &mut all)?;
    for one in file.modules.as_slice() {
        add_own(one, &mut all)?;
    }
    Ok(all)
}

fn add_own<'a>(one: &'a PrismModule, all: &mut Vec<&'a PrismVar>) -> Result<(), AllocError>
    ensures { IfOk result (λ u. vars_of all.new.items ≡ vars_of all.old.items ++ own_variables (module_of one.now)) }
{
    match one {
        PrismModule::Plain(body) => add_variables(body.vars.as_slice(), all),
        PrismModule::Copied(_) => Ok(()),
    }
}

fn add_variables<'a>(
    variables: &'a [PrismVar],
    all: &mut Vec<&'a PrismVar>,
) -> Result<(), AllocError>
    ensures { IfOk result (λ u. vars_of all.new.items ≡ vars_of all.old.items ++ map var_of variables.now) }
{
    for variable in variables {
        all.push(variable)?;
    }
    Ok(())
}

/// What variables come out as, with an initial condition or without.
pub(crate) fn variables_under<'a>(
    alloc: Global,
    has_condition: bool,
    variables: &[&'a PrismVar],
    names: &ConstantNames,
) -> Result<Vec<Variable<'a>>, AllocError>
    ensures { IfOk result (λ xs. map variable_of xs.items ≡ map (λ x. trimmed_column (column has_condition unchanged (seen_in names.now) x)) (vars_of variables.now)) }
{
    let found = each_found(alloc, has_condition, variables, names)?;
    let all = named(alloc, found.as_slice())?;
    Ok(all)
}

/// A variable's name, and what it comes out as.
#[derive(Drop)]
pub(crate) struct Found<'a> {
    name: &'a Text,
    values: Box<Values>,
}

/// What the bounds and the first value of a variable come out as; with an initial condition it has none.
#[derive(Clone, Copy)]
pub(crate) struct Values {
    bounds: Option<Bounds>,
    first: Option<Result<Value, EvalFail>>,
}

fn named<'a>(alloc: Global, found: &[Found<'a>]) -> Result<Vec<Variable<'a>>, AllocError>
    ensures { IfOk result (λ xs. xs.items ≡ map named_variable found.now) }
{
    found.iter().map(|x| named_variable(x)).collect(alloc)
}

fn named_variable<'a>(found: &Found<'a>) -> Variable<'a>
    ensures { result ≡ named_variable found.now }
{
    Variable {
        name: found.name,
        bounds: found.values.bounds,
        first: found.values.first,
    }
}

fn each_found<'a>(
    alloc: Global,
    has_condition: bool,
    variables: &[&'a PrismVar],
    names: &ConstantNames,
) -> Result<Vec<Found<'a>>, AllocError>
    ensures { IfOk result (λ xs. map found_column xs.items ≡ map (λ x. trimmed_column (column has_condition unchanged (seen_in names.now) x)) (vars_of variables.now)) }
{
    let mut all = Vec::with_capacity(alloc, variables.len())?;
    for variable in variables {
        let values = Box::new(alloc, values_under(has_condition, variable, names))?;
        all.push(Found {
            name: &variable.name.name,
            values,
        })?;
    }
    Ok(all)
}

fn values_under(has_condition: bool, variable: &PrismVar, names: &ConstantNames) -> Values
    ensures { column_with variable.now.name.name result ≡ trimmed_column (column has_condition unchanged (seen_in names.now) (var_of variable.now)) }
{
    Values {
        bounds: bounds_under(&variable.range, names),
        first: first_under(has_condition, variable, names),
    }
}

fn bounds_under(range: &Option<PrismRange>, names: &ConstantNames) -> Option<Bounds>
    ensures { bounds_of result ≡ trimmed_domain (domain_of (seen_in names.now) (option_map syntax.range_of range.now)) }
{
    match range {
        None => None,
        Some(range) => Some(Bounds {
            low: value_of(&range.low, names),
            high: value_of(&range.high, names),
        }),
    }
}

/// The value that a variable begins with: none with an initial condition.
fn first_under(
    has_condition: bool,
    variable: &PrismVar,
    names: &ConstantNames,
) -> Option<Result<Value, EvalFail>>
    ensures { option_map seen_of result
        ≡ option_map trimmed_seen (first_under has_condition (first_of (seen_in names.now) (option_map tree variable.now.start) (option_map syntax.range_of variable.now.range))) }
{
    if has_condition {
        None
    } else {
        Some(start_under(variable, names))
    }
}

/// The value that a variable begins with, without an initial condition: its own, else the low bound, else false.
fn start_under(variable: &PrismVar, names: &ConstantNames) -> Result<Value, EvalFail>
    ensures { seen_of result ≡ trimmed_seen (first_of (seen_in names.now) (option_map tree variable.now.start) (option_map syntax.range_of variable.now.range)) }
{
    match &variable.start {
        Some(e) => value_of(e, names),
        None => low_under(&variable.range, names),
    }
}

fn low_under(range: &Option<PrismRange>, names: &ConstantNames) -> Result<Value, EvalFail>
    ensures { seen_of result ≡ trimmed_seen (first_of (seen_in names.now) None (option_map syntax.range_of range.now)) }
{
    match range {
        Some(range) => value_of(&range.low, names),
        None => Ok(Value::Truth(false)),
    }
}
