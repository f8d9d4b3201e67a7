//! Where the names of a file stand.
ghost use Rattle.std.specs.Prelude.{◌≡◌, IfOk, OnOk, List, ℕ, map};
ghost use Rattle.std.specs.Option.{option_or};
ghost use Rattle.name_rules.specs.Names.{under};
ghost use Rattle.prism_tree.specs.Syntax.{const_of};
ghost use Rattle.instance_start.specs.Columns.{column_of};
ghost use Rattle.prism_instance.specs.Places.{column_place, constant_place};

use instance_start::{Column, Place};
use name_rules::NameMap;
use prism_tree::PrismConst;
use std::alloc::{AllocError, Global};

/// Where the names of constants stand.
pub(crate) fn constant_places<'a>(
    alloc: Global,
    constants: &'a [PrismConst],
) -> Result<NameMap<'a, Place>, AllocError>
    ensures { IfOk result (λ m. (x : List ℕ) → under m x ≡ constant_place 0 (map const_of constants.now) x) }
{
    let mut places = NameMap::new(alloc);
    add_constants(constants, &mut places)?;
    Ok(places)
}

/// Where the names of variables and of constants stand: variables first.
pub(crate) fn places<'a>(
    alloc: Global,
    columns: &[Column<'a>],
    constants: &'a [PrismConst],
) -> Result<NameMap<'a, Place>, AllocError>
    ensures { IfOk result (λ m. (x : List ℕ) → under m x ≡ option_or (column_place 0 (map column_of columns.now) x) (constant_place 0 (map const_of constants.now) x)) }
{
    let mut places = NameMap::new(alloc);
    add_columns(columns, &mut places)?;
    add_constants(constants, &mut places)?;
    Ok(places)
}

fn add_columns<'a>(
    columns: &[Column<'a>],
    places: &mut NameMap<'a, Place>,
) -> Result<(), AllocError>
    ensures { OnOk result ((x : List ℕ) → under places.new x ≡ option_or (under places.old x) (column_place 0 (map column_of columns.now) x)) }
{
    for (i, column) in columns.iter().enumerate() {
        places.put_first(column.name.as_str(), Place::Variable(i))?;
    }
    Ok(())
}

fn add_constants<'a>(
    constants: &'a [PrismConst],
    places: &mut NameMap<'a, Place>,
) -> Result<(), AllocError>
    ensures { OnOk result ((x : List ℕ) → under places.new x ≡ option_or (under places.old x) (constant_place 0 (map const_of constants.now) x)) }
{
    for (i, constant) in constants.iter().enumerate() {
        places.put_first(constant.name.name.as_str(), Place::Constant(i))?;
    }
    Ok(())
}
