// The columns of a translation: for each the one of the file that it stands for.

ghost use Rattle.std.specs.Prelude.{◌≡◌, ◌++◌, map, IfOk, OnOk};
ghost use Rattle.std.specs.List.{flat_map};
ghost use Rattle.gathering.specs.Lists.{list_for};
ghost use Rattle.prism_targets.specs.Elements.{elements, lasting_variables, shared};
ghost use Rattle.prism_modules.specs.Code.{file_in, IsReady, element_of, lasting_of};
ghost use Rattle.prism_modules.specs.Homes.{AreWriters};
ghost use Rattle.prism_modules.specs.Gathered.{AreGathered};
ghost use Rattle.jani_to_prism.specs.MapParts.{columns_at, element_columns, file_columns, location_columns, variable_columns};

use crate::file::writers;
use bridge_io::List;
use carry_maps::Column;
use gathering::NumberLists;
use prism_modules::{
    Element, FileParts, LastingVar, Names, WriterTable, at_home, elements, lasting_variables,
    shared,
};
use std::alloc::{AllocError, Global};

/// Adds the columns of variables.
fn add_variables(all: &mut List<Column>, vars: &[LastingVar]) -> Result<(), AllocError>
    ensures { OnOk result (all.new ≡ all.old ++ variable_columns (map lasting_of vars.now)) }
{
    for x in vars {
        all.push(Column::Variable(x.number))?;
    }
    Ok(())
}

/// Adds that of the location of an element, where there are several.
fn add_location(all: &mut List<Column>, el: &Element) -> Result<(), AllocError>
    ensures { OnOk result (all.new ≡ all.old ++ location_columns (element_of el.now)) }
{
    if el.has_several() {
        all.push(Column::Location(el.number))?;
    }
    Ok(())
}

/// Adds those of an element: its location, and the variables that are at home there.
fn add_element(all: &mut List<Column>, el: &Element, home: &[LastingVar]) -> Result<(), AllocError>
    ensures { OnOk result (all.new ≡ all.old ++ columns_at (map lasting_of home.now) (element_of el.now)) }
{
    add_location(all, el)?;
    add_variables(all, home)?;
    Ok(())
}

/// Adds those of elements.
fn add_elements(
    all: &mut List<Column>,
    els: &[Element],
    homes: &NumberLists<LastingVar>,
) -> Result<(), AllocError>
    ensures { OnOk result (all.new ≡ all.old ++ flat_map (λ el. columns_at (map lasting_of (list_for homes.now el.number)) el) (map element_of els.now)) }
{
    for el in els {
        add_element(all, el, homes.get(el.number))?;
    }
    Ok(())
}

/// Adds those of modules.
fn add_modules(
    alloc: Global,
    all: &mut List<Column>,
    names: &Names,
    els: &[Element],
    writers: &WriterTable,
    vars: &[LastingVar],
) -> Result<(), AllocError>
    requires elements { map element_of els.now ≡ elements (file_in names.now) }
    requires writers { AreWriters writers.now (file_in names.now) }
    requires vars { map lasting_of vars.now ≡ lasting_variables (file_in names.now) }
    ensures { OnOk result (all.new ≡ all.old ++ flat_map (element_columns (file_in names.now)) (elements (file_in names.now))) }
{
    let homes = at_home(alloc, names, writers, vars)?;
    add_elements(all, els, &homes)?;
    Ok(())
}

/// Those of the variables that stay global.
fn shared_columns(
    alloc: Global,
    names: &Names,
    writers: &WriterTable,
    vars: &[LastingVar],
) -> Result<List<Column>, AllocError>
    requires writers { AreWriters writers.now (file_in names.now) }
    requires vars { map lasting_of vars.now ≡ lasting_variables (file_in names.now) }
    ensures { IfOk result (λ cs. cs ≡ variable_columns (shared (file_in names.now))) }
{
    let shared = shared(alloc, names, writers, vars)?;
    let mut all = List::new(alloc);
    add_variables(&mut all, shared.as_slice())?;
    Ok(all)
}

/// Those of the file, by the writers of its variables.
fn columns_by(
    alloc: Global,
    names: &Names,
    els: &[Element],
    writers: &WriterTable,
    vars: &[LastingVar],
) -> Result<List<Column>, AllocError>
    requires elements { map element_of els.now ≡ elements (file_in names.now) }
    requires writers { AreWriters writers.now (file_in names.now) }
    requires vars { map lasting_of vars.now ≡ lasting_variables (file_in names.now) }
    ensures { IfOk result (λ cs. cs ≡ file_columns (file_in names.now)) }
{
    let mut all = shared_columns(alloc, names, writers, vars)?;
    add_modules(alloc, &mut all, names, els, writers, vars)?;
    Ok(all)
}

/// Those of the file, by its elements.
fn columns_of(
    alloc: Global,
    names: &Names,
    els: &[Element],
    vars: &[LastingVar],
) -> Result<List<Column>, AllocError>
    requires names { IsReady names.now }
    requires elements { map element_of els.now ≡ elements (file_in names.now) }
    requires vars { map lasting_of vars.now ≡ lasting_variables (file_in names.now) }
    ensures { IfOk result (λ cs. cs ≡ file_columns (file_in names.now)) }
{
    let writers = writers(alloc, names, els)?;
    columns_by(alloc, names, els, &writers, vars)
}

/// For each column of the translated file the one of the file that it stands for, where these are the parts of the file.
pub(crate) fn map_columns(
    alloc: Global,
    names: &Names,
    parts: &FileParts,
) -> Result<List<Column>, AllocError>
    requires names { IsReady names.now }
    requires parts { AreGathered parts.now (file_in names.now) }
    ensures { IfOk result (λ cs. cs ≡ file_columns (file_in names.now)) }
{
    let els = elements(alloc, parts.automata.as_slice())?;
    let vars = lasting_variables(alloc, parts.lasting.as_slice())?;
    columns_of(alloc, names, els.as_slice(), vars.as_slice())
}
