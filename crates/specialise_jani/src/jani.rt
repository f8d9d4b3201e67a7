// JANI models specialised.

ghost use Rattle.std.specs.Prelude.{◌≡◌, IfErr, IfOk, None, map};
ghost use Rattle.process_core.specs.Instance.{Valuation};
ghost use Rattle.instance_start.specs.Given.{given_by};
ghost use Rattle.jani_tree.specs.Syntax.{const_of, file_of};
ghost use Rattle.jani_check.specs.Faults.{IsChecked};
ghost use Rattle.constant_folding.specs.Constants as folding;
ghost use Rattle.constant_folding.specs.Constants.{AreRanked, described};
ghost use Rattle.constant_folding.specs.Tables.{IsKnownUnder, given_in};
ghost use Rattle.constant_folding.specs.Unfit.{AreFitting, Extends, Fails, IsSmall, unfit};
ghost use Rattle.jani_table.specs.Operators.{jani_meaning};
ghost use Rattle.specialise_jani.specs.Specialised.{any_const, any_constants, specialised};
ghost use Rattle.specialise_jani.specs.SameMeaning.{SameMeaningAt};

use crate::file::folded_file;
use crate::numerals::JaniNumerals;
use constant_folding::{AnyConst, KnownTable, SpecFail, known_under};
use jani_check::CheckedJani;
use jani_tree::{JaniConst, JaniFile, JaniOp};
use process_core::Given;
use std::alloc::{AllocError, Global};

/// The model with the given values for some of its open constants, and every expression folded, as far as the known constants settle it. It has the
/// declarations, edges and vectors of the model in order and the same properties, and under each valuation that gives the given constants their values it
/// means the same: the same faults, initial states, marks and choices in order. It is of the profile. `Err` is want of memory, or the first given value
/// that no open constant takes.
pub fn specialise_jani(
    alloc: Global,
    checked: &CheckedJani,
    given: &[Given],
) -> Result<JaniFile, SpecFail>
    ensures tree { IfOk result (λ f. file_of f ≡ specialised (file_of checked.now) (given_by given.now)) }
    ensures clean { IfOk result (λ f. IsChecked (file_of f)) }
    ensures meaning { IfOk result (λ f. (v : Valuation) → Extends (given_by given.now) v → SameMeaningAt (file_of checked.now) (file_of f) v) }
    ensures fits { IfOk result (λ f. unfit (map described (any_constants (file_of checked.now))) given.now ≡ None) }
    ensures word { IfErr result (λ e. Fails (map described (any_constants (file_of checked.now))) given.now e) }
{
    match any_constants(alloc, checked.file().constants.as_slice()) {
        Err(e) => Err(SpecFail::Memory(e)),
        Ok(constants) => match known_under(alloc, constants.as_slice(), given, JaniNumerals) {
            Err(e) => Err(e),
            Ok(table) => match folded_by(alloc, checked, &table) {
                Ok(file) => Ok(file),
                Err(e) => Err(SpecFail::Memory(e)),
            },
        },
    }
}

/// The constants, as those of a model in any language.
fn any_constants(
    alloc: Global,
    constants: &[JaniConst],
) -> Result<Vec<AnyConst<JaniOp>>, AllocError>
    ensures { IfOk result (λ cs. map folding.const_of cs.items ≡ map any_const (map const_of constants.now)) }
{
    let mut all = Vec::with_capacity(alloc, constants.len())?;
    for constant in constants {
        all.push(AnyConst {
            name: &constant.name,
            ty: constant.ty,
            value: &constant.value,
        })?;
    }
    Ok(all)
}

/// The model folded by what is known of its constants under values that fit.
fn folded_by(
    alloc: Global,
    checked: &CheckedJani,
    table: &KnownTable<JaniNumerals>,
) -> Result<JaniFile, AllocError>
    requires known { IsKnownUnder jani_meaning (any_constants (file_of checked.now)) (given_in table.now) table.now }
    requires ranked { AreRanked (any_constants (file_of checked.now)) }
    requires small { IsSmall (given_in table.now) }
    requires fitting { AreFitting (any_constants (file_of checked.now)) (given_in table.now) }
    ensures tree { IfOk result (λ f. file_of f ≡ specialised (file_of checked.now) (given_in table.now)) }
    ensures clean { IfOk result (λ f. IsChecked (file_of f)) }
    ensures meaning { IfOk result (λ f. (v : Valuation) → Extends (given_in table.now) v → SameMeaningAt (file_of checked.now) (file_of f) v) }
{
    folded_file(alloc, checked.file(), table)
}
