//! The values of the constants of a file.
ghost use Rattle.std.specs.Prelude.{◌≡◌, ◌<◌, ◌++◌, ℕ, List, IfOk, MatchResult, [], ◌∷◌, length, map, Some};
ghost use Rattle.std.specs.Option.{option_map};
ghost use Rattle.op_trees.specs.Tree.{tree};
ghost use Rattle.name_rules.specs.Circles.{AreTurns, circles, declared_by};
ghost use Rattle.name_rules.specs.Names.{under};
ghost use Rattle.prism_tree.specs.Syntax.{const_of, file_of};
ghost use Rattle.prism_check.specs.Scene.{constant, constant_seen};
ghost use Rattle.state_choices.specs.Trimmed.{computed};
ghost use Rattle.state_choices.specs.Views.{seen_of};
ghost use Rattle.prism_instance.specs.Constants.{AreConstants, declared_const, HasWideConstant};
ghost use Rattle.prism_instance.specs.Places.{constant_place};
ghost use Rattle.prism_instance.specs.Views.{names_by, seen_in};

use crate::constant_names::{ConstantNames, value_of};
use instance_start::{Place, is_wide};
use name_rules::{Declaration, NameMap, judge_circles};
use op_trees::{EvalFail, Value, held};
use prism_check::uses_of;
use prism_tree::{PrismConst, PrismFile};
use process_core::StartFail;
use std::alloc::{AllocError, Global};

/// An order in which each constant stands behind those that its value needs.
pub(crate) fn constant_order(
    alloc: Global,
    constants: &[PrismConst],
) -> Result<Vec<usize>, AllocError>
    requires { circles (map declared_const (map const_of constants.now)) ≡ [] }
    ensures { IfOk result (λ ts. AreTurns (map declared_const (map const_of constants.now)) ts.items) }
{
    let all = declarations(alloc, constants)?;
    let circles = judge_circles(alloc, &all, None)?;
    Ok(circles.turns)
}

/// The constants with the names that they use.
fn declarations(alloc: Global, constants: &[PrismConst]) -> Result<Vec<Declaration>, AllocError>
    ensures { IfOk result (λ ds. map declared_by ds.items ≡ map declared_const (map const_of constants.now)) }
{
    let mut all = Vec::with_capacity(alloc, constants.len())?;
    for constant in constants {
        let uses = uses_of(alloc, constant.value.as_ref())?;
        all.push(Declaration {
            name: constant.name.name.as_str(),
            at: constant.name.at,
            uses,
        })?;
    }
    Ok(all)
}

/// The values of the constants, in an order in which each stands behind those that its value needs, by those that are given.
/// `Wide` where one is.
pub(crate) fn constant_values(
    alloc: Global,
    file: &PrismFile,
    given: &NameMap<Value>,
    places: &NameMap<Place>,
    order: &[usize],
) -> Result<Vec<Option<Value>>, StartFail>
    requires form { (file_of file.now).formulas ≡ [] }
    requires turns { AreTurns (map declared_const (map const_of file.now.constants)) order.now }
    requires places { (x : List ℕ) → under places.now x ≡ constant_place 0 (map const_of file.now.constants) x }
    ensures { MatchResult result (λ t. AreConstants (file_of file.now) (under given.now) t.items) (HasWideConstant (file_of file.now) (under given.now)) }
{
    let mut table = match no_values(alloc, file.constants.len()) {
        Ok(table) => table,
        Err(e) => return Err(StartFail::Memory(e)),
    };
    for turn in order {
        let constant = &file.constants.as_slice()[*turn];
        let value = value_under(constant, given, places, table.as_slice());
        if is_wide(&value) {
            return Err(StartFail::Wide);
        }
        table[*turn] = defined(&value);
    }
    Ok(table)
}

/// So many values that aren't known.
fn no_values(alloc: Global, count: usize) -> Result<Vec<Option<Value>>, AllocError>
    ensures { IfOk result (λ t. length t.items ≡ count) }
{
    let mut table = Vec::with_capacity(alloc, count)?;
    for _i in 0..count {
        table.push(None)?;
    }
    Ok(table)
}

/// The value of a constant, by those that are in the table.
fn value_under(
    constant: &PrismConst,
    given: &NameMap<Value>,
    places: &NameMap<Place>,
    table: &[Option<Value>],
) -> Result<Value, EvalFail>
    ensures { result ≡ computed (constant_seen (under given.now constant.now.name.name) (names_by places.now table.now) (option_map tree constant.now.value)) }
{
    match &constant.value {
        Some(e) => value_of(e, &constants_alone(places, table)),
        None => held(given.get(constant.name.name.as_str())),
    }
}

/// The constants, without a state.
pub(crate) fn constants_alone<'a, 'b>(
    places: &'a NameMap<'b, Place>,
    table: &'a [Option<Value>],
) -> ConstantNames<'a, 'b>
    ensures { seen_in result ≡ names_by places.now table.now }
{
    ConstantNames {
        places,
        table,
        values: &[],
    }
}

fn defined(value: &Result<Value, EvalFail>) -> Option<Value>
    ensures { result ≡ (seen_of value.now).value }
{
    match value {
        Ok(value) => Some(*value),
        Err(_) => None,
    }
}
