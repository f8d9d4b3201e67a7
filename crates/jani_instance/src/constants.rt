//! The values of the constants.
ghost use Rattle.std.specs.Prelude.{◌≡◌, ◌+◌, ℕ, List, [], IfOk, IsTrue, Some, length, map};
ghost use Rattle.std.specs.List.{list_any};
ghost use Rattle.std.specs.Option.{option_map};
ghost use Rattle.op_trees.specs.Seen.{known, known_names};
ghost use Rattle.op_trees.specs.Tree.{tree};
ghost use Rattle.name_rules.specs.Circles.{AreTurns, circles};
ghost use Rattle.name_rules.specs.Names.{under};
ghost use Rattle.state_choices.specs.Trimmed.{computed};
ghost use Rattle.state_choices.specs.Views.{seen_of};
ghost use Rattle.jani_tree.specs.Syntax.{const_of, file_of};
ghost use Rattle.jani_check.specs.Circles.{const_declared};
ghost use Rattle.jani_meaning.specs.Scene.{constant_seen};
ghost use Rattle.jani_instance.specs.Constants.{AreWithin, Tabled, constant_place, first_table, round_of};
ghost use Rattle.jani_instance.specs.Views.{seen_in, values_by};

use crate::run::{Run, constants_alone, value_of};
use instance_start::{Place, equal_values, is_wide};
use jani_check::declarations;
use jani_tree::{JaniConst, JaniFile};
use name_rules::{NameMap, judge_circles};
use op_trees::{EvalFail, Value};
use std::alloc::{AllocError, Global};

/// The values of the constants, none for one that is undefined; or none at all where something is wide. Constants stand in any
/// order: they are taken so that each stands behind those that it uses, and where that doesn't settle them, in turns.
pub(crate) fn constant_table(
    alloc: Global,
    file: &JaniFile,
    given: &NameMap<Value>,
    places: &NameMap<Place>,
) -> Result<Option<Vec<Option<Value>>>, AllocError>
    requires { (x : List ℕ) → under places.now x ≡ constant_place (map const_of file.now.constants) x }
    ensures { IfOk result (λ table. Tabled (file_of file.now) (under given.now) (option_map (λ t. t.items) table)) }
{
    let constants = file.constants.as_slice();
    let order = constant_order(alloc, constants)?;
    let table = ordered_table(alloc, file, given, places, order.as_slice())?;
    let found = constant_values(alloc, constants, given, places, table.as_slice())?;
    if has_wide(found.as_slice()) {
        return Ok(None);
    }
    let next = values(alloc, found.as_slice())?;
    if same(table.as_slice(), next.as_slice()) {
        return Ok(Some(table));
    }
    table_in_turns(alloc, file, given, places)
}

/// Places of the constants, each behind those that it uses, where none depends on itself. Nothing but time rests on it.
fn constant_order(alloc: Global, constants: &[JaniConst]) -> Result<Vec<usize>, AllocError>
    ensures { let ds = map const_declared (map const_of constants.now) in IfOk result (λ order. circles ds ≡ [] → AreTurns ds order.items) }
{
    let all = declarations(alloc, constants)?;
    let circles = judge_circles(alloc, &all, None)?;
    Ok(circles.turns)
}

/// Values of constants, of those that are taken one after another in an order.
fn ordered_table(
    alloc: Global,
    file: &JaniFile,
    given: &NameMap<Value>,
    places: &NameMap<Place>,
    order: &[usize],
) -> Result<Vec<Option<Value>>, AllocError>
    requires { (x : List ℕ) → under places.now x ≡ constant_place (map const_of file.now.constants) x }
    ensures { IfOk result (λ t. AreWithin (file_of file.now) (under given.now) (length file.now.constants) t.items) }
{
    let constants = file.constants.as_slice();
    let mut table = first_table(alloc, constants)?;
    for k in 0..constants.len() {
        let i = order.get(k).copied().unwrap_or(k);
        take_turn(file, given, places, i, &mut table);
    }
    Ok(table)
}

/// Puts the value of one more constant into a table.
fn take_turn(
    file: &JaniFile,
    given: &NameMap<Value>,
    places: &NameMap<Place>,
    i: usize,
    table: &mut Vec<Option<Value>>,
)
    requires { (x : List ℕ) → under places.now x ≡ constant_place (map const_of file.now.constants) x }
    ensures { (n : ℕ) → AreWithin (file_of file.now) (under given.now) n table.old.items → AreWithin (file_of file.now) (under given.now) (n + 1) table.new.items }
{
    let constants = file.constants.as_slice();
    if i >= constants.len() || i >= table.len() {
        return;
    }
    let value = next_value(&constants[i], given, places, table.as_slice());
    table[i] = value;
}

fn next_value(
    constant: &JaniConst,
    given: &NameMap<Value>,
    places: &NameMap<Place>,
    table: &[Option<Value>],
) -> Option<Value>
    ensures { result ≡ (seen_of (computed (constant_seen (under given.now constant.now.name.name) (known_names (values_by places.now table.now)) (option_map tree constant.now.value)))).value }
{
    let run = constants_alone(places, table);
    let value: Result<Value, EvalFail> = constant_value(constant, given, &run);
    value_in(&value)
}

/// The same in turns: all are looked at until nothing changes.
fn table_in_turns(
    alloc: Global,
    file: &JaniFile,
    given: &NameMap<Value>,
    places: &NameMap<Place>,
) -> Result<Option<Vec<Option<Value>>>, AllocError>
    requires { (x : List ℕ) → under places.now x ≡ constant_place (map const_of file.now.constants) x }
    ensures { IfOk result (λ table. Tabled (file_of file.now) (under given.now) (option_map (λ t. t.items) table)) }
{
    let constants = file.constants.as_slice();
    let mut table = first_table(alloc, constants)?;
    for _turn in 0..constants.len() {
        let found = constant_values(alloc, constants, given, places, table.as_slice())?;
        if has_wide(found.as_slice()) {
            return Ok(None);
        }
        let next = values(alloc, found.as_slice())?;
        if same(table.as_slice(), next.as_slice()) {
            return Ok(Some(table));
        }
        table = next;
    }
    Ok(Some(table))
}

/// No value for each constant.
fn first_table(alloc: Global, constants: &[JaniConst]) -> Result<Vec<Option<Value>>, AllocError>
    ensures { IfOk result (λ t. t.items ≡ first_table (map const_of constants.now)) }
{
    let mut table = Vec::with_capacity(alloc, constants.len())?;
    for _constant in constants {
        let none: Option<Value> = None;
        table.push(none)?;
    }
    Ok(table)
}

/// What the constants come out as, where those in their expressions have the values of a table.
pub(crate) fn constant_values(
    alloc: Global,
    constants: &[JaniConst],
    given: &NameMap<Value>,
    places: &NameMap<Place>,
    table: &[Option<Value>],
) -> Result<Vec<Result<Value, EvalFail>>, AllocError>
    requires { (x : List ℕ) → under places.now x ≡ constant_place (map const_of constants.now) x }
    ensures { IfOk result (λ rs. rs.items ≡ map computed (round_of (map const_of constants.now) (under given.now) table.now)) }
{
    let run = constants_alone(places, table);
    each_value(alloc, constants, given, &run)
}

fn each_value(
    alloc: Global,
    constants: &[JaniConst],
    given: &NameMap<Value>,
    run: &Run,
) -> Result<Vec<Result<Value, EvalFail>>, AllocError>
    ensures { IfOk result (λ rs. rs.items ≡ map (λ c. computed (constant_seen (under given.now c.name.name) (seen_in run.now) c.value)) (map const_of constants.now)) }
{
    let mut all = Vec::with_capacity(alloc, constants.len())?;
    for constant in constants {
        let value: Result<Value, EvalFail> = constant_value(constant, given, run);
        all.push(value)?;
    }
    Ok(all)
}

/// What a constant comes out as: the value that is given for it, or that of its expression.
fn constant_value(
    constant: &JaniConst,
    given: &NameMap<Value>,
    run: &Run,
) -> Result<Value, EvalFail>
    ensures { result ≡ computed (constant_seen (under given.now constant.now.name.name) (seen_in run.now) (option_map tree constant.now.value)) }
{
    match &constant.value {
        Some(e) => value_of(e, run),
        None => held(given.get(constant.name.name.as_str())),
    }
}

/// A value that the code holds is never wide.
fn held(value: Option<Value>) -> Result<Value, EvalFail>
    ensures { result ≡ computed (known value) }
{
    match value {
        Some(value) => small(value),
        None => Err(EvalFail::Undef),
    }
}

fn small(value: Value) -> Result<Value, EvalFail>
    ensures { result ≡ computed (known (Some value)) }
{
    match value {
        Value::Truth(b) => Ok(Value::Truth(b)),
        Value::Number(q) => {
            let _num = q.num();
            Ok(Value::Number(q))
        }
    }
}

/// Whether something is wide.
fn has_wide(found: &[Result<Value, EvalFail>]) -> bool
    ensures { result ≡ list_any (λ r. (seen_of r).wide) found.now }
{
    for one in found {
        if is_wide(one) {
            return true;
        }
    }
    false
}

/// The values.
fn values(
    alloc: Global,
    found: &[Result<Value, EvalFail>],
) -> Result<Vec<Option<Value>>, AllocError>
    ensures { IfOk result (λ t. t.items ≡ map (λ r. (seen_of r).value) found.now) }
{
    let mut all = Vec::with_capacity(alloc, found.len())?;
    for one in found {
        let value: Option<Value> = value_in(one);
        all.push(value)?;
    }
    Ok(all)
}

fn value_in(answer: &Result<Value, EvalFail>) -> Option<Value>
    ensures { result ≡ (seen_of answer.now).value }
{
    match answer {
        Ok(value) => Some(*value),
        Err(_) => None,
    }
}

/// Whether two tables are the same.
fn same(a: &[Option<Value>], b: &[Option<Value>]) -> bool
    ensures { IsTrue result → a.now ≡ b.now }
{
    if a.len() != b.len() {
        return false;
    }
    for (i, one) in a.iter().enumerate() {
        if !same_value(*one, b[i]) {
            return false;
        }
    }
    true
}

fn same_value(a: Option<Value>, b: Option<Value>) -> bool
    ensures { IsTrue result → a ≡ b }
{
    match a {
        Some(x) => match b {
            Some(y) => equal_values(x, y),
            None => false,
        },
        None => b.is_none(),
    }
}
