// The values that are given for the constants of a model, given to those of its counterpart.

ghost use Rattle.std.specs.Prelude.{◌≡◌, ◌++◌, IfOk, OnOk, map};
ghost use Rattle.name_rules.specs.Names.{under};
ghost use Rattle.instance_start.specs.Columns.{constant_of};
ghost use Rattle.instance_start.specs.Given.{given_by};
ghost use Rattle.model_carrying.specs.Values.{value_as, values_there};

use bridge_io::{List, Text};
use instance_start::{Constant, given_values};
use name_rules::NameMap;
use op_trees::Value;
use process_core::Given;
use std::alloc::{AllocError, Global};

/// The values of the open ones of these constants, under the names of those that stand at their places there. `Err` is want of memory.
pub(crate) fn values_there(
    alloc: Global,
    here: &[Constant],
    there: &[Constant],
    given: &[Given],
) -> Result<List<Given>, AllocError>
    ensures { IfOk result (λ gs. gs ≡ values_there (map constant_of here.now) (map constant_of there.now) (given_by given.now)) }
{
    let values = given_values(alloc, given)?;
    values_by(alloc, here, there, &values)
}

/// The same, where these values are given.
fn values_by(
    alloc: Global,
    here: &[Constant],
    there: &[Constant],
    given: &NameMap<Value>,
) -> Result<List<Given>, AllocError>
    ensures { IfOk result (λ gs. gs ≡ values_there (map constant_of here.now) (map constant_of there.now) (under given.now)) }
{
    let mut values = List::new(alloc);
    for (i, constant) in here.iter().enumerate() {
        if i == there.len() {
            return Ok(values);
        }
        push_value(alloc, &mut values, *constant, there[i], given)?;
    }
    Ok(values)
}

/// Adds the value of a constant, if it is open and given, under the name of another.
fn push_value(
    alloc: Global,
    values: &mut List<Given>,
    here: Constant,
    there: Constant,
    given: &NameMap<Value>,
) -> Result<(), AllocError>
    ensures { OnOk result (values.new ≡ values.old ++ value_as here.entry.is_open there.entry.name.now (under given.now here.entry.name.now)) }
{
    if !here.is_open {
        return Ok(());
    }
    match given.get(here.name.as_str()) {
        Some(value) => {
            let name = Text::copy_of(alloc, there.name.as_str())?;
            values.push(Given { name, value })
        }
        None => Ok(()),
    }
}
