// Values that are given for some of the constants that a model leaves open.

ghost use Rattle.std.specs.Prelude.{◌≡◌, map, false, IfOk, Some};
ghost use Rattle.std.specs.List.{AllByRecursion};
ghost use Rattle.op_trees.specs.Meaning.{is_wide_value};
ghost use Rattle.instance_start.specs.Columns.{constant_of};
ghost use Rattle.constant_folding.specs.Constants.{const_of, described};
ghost use Rattle.constant_folding.specs.Unfit.{place_within, unfit};

use crate::constants::AnyConst;
use instance_start::{Constant, misfit};
use op_trees::{Operator, Value};
use process_core::Given;
use std::alloc::{AllocError, Global};

/// Why a model wasn't specialised.
#[derive(Drop)]
pub enum SpecFail {
    /// Want of memory.
    Memory(AllocError),
    /// The given value of this number is the first that no open constant takes.
    Word(usize),
}

/// The first given value that no open constant takes. `Err` is want of memory.
pub(crate) fn unfit<O: Operator>(
    alloc: Global,
    constants: &[AnyConst<O>],
    given: &[Given],
) -> Result<Option<usize>, AllocError>
    ensures { IfOk result (λ first. first ≡ unfit (map described (map const_of constants.now)) given.now) }
{
    let described = described(alloc, constants)?;
    let first = misfit(alloc, described.as_slice(), given)?;
    Ok(place_within(first, given.len()))
}

/// A place, unless it is behind the last of so many.
fn place_within(place: Option<usize>, count: usize) -> Option<usize>
    ensures { result ≡ place_within place count }
{
    match place {
        Some(i) if i < count => Some(i),
        _ => None,
    }
}

/// The constants, each with its type, and whether it is left open. `Err` is want of memory.
fn described<'a, O: Operator>(
    alloc: Global,
    constants: &[AnyConst<'a, O>],
) -> Result<Vec<Constant<'a>>, AllocError>
    ensures { IfOk result (λ cs. map constant_of cs.items ≡ map described (map const_of constants.now)) }
{
    let mut all = Vec::with_capacity(alloc, constants.len())?;
    for constant in constants {
        all.push(Constant {
            name: &constant.name.name,
            ty: constant.ty,
            is_open: constant.value.is_none(),
        })?;
    }
    Ok(all)
}

/// No value that the code holds is wide: a function that does nothing.
pub(crate) fn given_are_small(given: &[Given])
    ensures { AllByRecursion (λ g. is_wide_value (Some g.value) ≡ false) given.now }
{
    for one in given {
        is_small(one.value);
    }
}

fn is_small(value: Value)
    ensures { is_wide_value (Some value) ≡ false }
{
    match value {
        Value::Truth(_) => (),
        Value::Number(q) => {
            let _num = q.num();
        }
    }
}
