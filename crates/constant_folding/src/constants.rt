// What is known of the constants of a model under given values, and what they become.

ghost use Rattle.std.specs.Prelude.{◌≡◌, IfErr, IfOk, IsOkAnd, List, ℕ, OnOk, [], None, bytes_eq, if◌then◌else◌, map, Some};
ghost use Rattle.std.specs.List.{AllByRecursion};
ghost use Rattle.std.specs.Option.{option_map};
ghost use Rattle.op_trees.specs.Tree.{tree};
ghost use Rattle.op_trees.specs.Meaning.{is_wide_value};
ghost use Rattle.name_rules.specs.Circles.{AreTurns, circles, declared_by};
ghost use Rattle.name_rules.specs.Names.{under};
ghost use Rattle.name_rules.specs.Uses.{used};
ghost use Rattle.instance_start.specs.Given.{given_by};
ghost use Rattle.constant_folding.specs.Known.{worth};
ghost use Rattle.constant_folding.specs.Constants.{AreRanked, called, const_of, declared, described, fixed_as, known_by, known_constants, specialised_value};
ghost use Rattle.constant_folding.specs.Tables.{IsKnownUnder, given_in, known_in};
ghost use Rattle.constant_folding.specs.Unfit.{Fails, IsSmall, unfit};

use crate::folding::{fold, fold_noted, worth};
use crate::given::{SpecFail, given_are_small, unfit};
use crate::known::{Constants, Fixed, Summary};
use crate::literals::Numerals;
use crate::table::KnownTable;
use bridge_io::Named;
use instance_start::given_values;
use name_rules::{Declaration, NameMap, add_names, judge_circles};
use op_trees::{Expr, Operator, Ty, Value};
use process_core::Given;
use std::alloc::{AllocError, Global};

/// A constant of a model, in whichever language that is: its name, its type, and its expression, where it has one.
#[derive(Drop)]
pub struct AnyConst<'a, O> {
    pub name: &'a Named,
    pub ty: Ty,
    pub value: &'a Option<Expr<O>>,
}

/// What is known of the constants of a model, none of which lead round in a circle, under values that are given for some that it leaves open. `Err` is want
/// of memory, or the first given value that no open constant takes.
pub fn known_under<'t, O: Operator, N: Copy + Numerals<O>>(
    alloc: Global,
    constants: &[AnyConst<'t, O>],
    given: &'t [Given],
    numerals: N,
) -> Result<KnownTable<'t, N>, SpecFail>
    requires circles { circles (map declared (map const_of constants.now)) ≡ [] }
    requires own { AllByRecursion (λ c. called (map const_of constants.now) c.name.name ≡ Some c) (map const_of constants.now) }
    ensures known { IfOk result (IsKnownUnder O.meaning (map const_of constants.now) (given_by given.entry.now)) }
    ensures ranked { IfOk result (λ t. AreRanked (map const_of constants.now)) }
    ensures small { IfOk result (λ t. IsSmall (given_by given.entry.now)) }
    ensures fits { IfOk result (λ t. unfit (map described (map const_of constants.now)) given.entry.now ≡ None) }
    ensures word { IfErr result (Fails (map described (map const_of constants.now)) given.entry.now) }
{
    given_are_small(given);
    match unfit(alloc, constants, given) {
        Err(e) => Err(SpecFail::Memory(e)),
        Ok(Some(i)) => Err(SpecFail::Word(i)),
        Ok(None) => match known_table(alloc, constants, given, numerals) {
            Ok(table) => Ok(table),
            Err(e) => Err(SpecFail::Memory(e)),
        },
    }
}

/// The same where all given values fit.
fn known_table<'t, O: Operator, N: Copy + Numerals<O>>(
    alloc: Global,
    constants: &[AnyConst<'t, O>],
    given: &'t [Given],
    numerals: N,
) -> Result<KnownTable<'t, N>, AllocError>
    requires circles { circles (map declared (map const_of constants.now)) ≡ [] }
    requires own { AllByRecursion (λ c. called (map const_of constants.now) c.name.name ≡ Some c) (map const_of constants.now) }
    ensures known { IfOk result (IsKnownUnder O.meaning (map const_of constants.now) (given_by given.entry.now)) }
    ensures ranked { IfOk result (λ t. AreRanked (map const_of constants.now)) }
{
    let order = constant_order(alloc, constants)?;
    let values = given_values(alloc, given)?;
    known_in_turn(alloc, constants, values, order.as_slice(), numerals)
}

/// An order in which each constant stands behind those that its expression names.
fn constant_order<O: Operator>(
    alloc: Global,
    constants: &[AnyConst<O>],
) -> Result<Vec<usize>, AllocError>
    requires { circles (map declared (map const_of constants.now)) ≡ [] }
    ensures { IfOk result (λ ts. AreTurns (map declared (map const_of constants.now)) ts.items) }
{
    let all = declarations(alloc, constants)?;
    let circles = judge_circles(alloc, &all, None)?;
    Ok(circles.turns)
}

/// The constants with the names that they use.
fn declarations<'a, O: Operator>(
    alloc: Global,
    constants: &[AnyConst<'a, O>],
) -> Result<Vec<Declaration<'a>>, AllocError>
    ensures { IfOk result (λ ds. map declared_by ds.items ≡ map declared (map const_of constants.now)) }
{
    let mut all = Vec::with_capacity(alloc, constants.len())?;
    for constant in constants {
        all.push(declaration(alloc, constant)?)?;
    }
    Ok(all)
}

/// A constant with the names that it uses.
fn declaration<'a, O: Operator>(
    alloc: Global,
    constant: &AnyConst<'a, O>,
) -> Result<Declaration<'a>, AllocError>
    ensures { IfOk result (λ d. declared_by d ≡ declared (const_of constant.now)) }
{
    let uses = uses_of(alloc, constant.value)?;
    Ok(Declaration {
        name: constant.name.name.as_str(),
        at: constant.name.at,
        uses,
    })
}

/// The names that an expression uses, if there is one.
fn uses_of<'a, O: Operator>(
    alloc: Global,
    value: &'a Option<Expr<O>>,
) -> Result<Vec<&'a str>, AllocError>
    ensures { IfOk result (λ list. map (λ s. s.now) list.items ≡ used (option_map tree value.entry.now)) }
{
    let mut list = Vec::new(alloc);
    if let Some(value) = value {
        add_names(value, &mut list)?;
    }
    Ok(list)
}

/// What is known of each constant, in an order in which each stands behind those that its expression names: each expression is looked at once.
fn known_in_turn<'t, O: Operator, N: Copy + Numerals<O>>(
    alloc: Global,
    constants: &[AnyConst<'t, O>],
    given: NameMap<'t, Value>,
    order: &[usize],
    numerals: N,
) -> Result<KnownTable<'t, N>, AllocError>
    requires turns { AreTurns (map declared (map const_of constants.now)) order.now }
    requires own { AllByRecursion (λ c. called (map const_of constants.now) c.name.name ≡ Some c) (map const_of constants.now) }
    ensures known { IfOk result (λ t. (x : List ℕ) → known_in t x ≡ known_constants O.meaning (map const_of constants.now) (under given.entry) x) }
    ensures given { IfOk result (λ t. given_in t ≡ under given.entry) }
{
    let mut table = KnownTable {
        constants: NameMap::new(alloc),
        given,
        numerals,
    };
    for turn in order {
        take_turn(alloc, &constants[*turn], &mut table)?;
    }
    Ok(table)
}

/// Puts what is known of a constant into the table, by what is known of those before it.
fn take_turn<'t, O: Operator, N: Copy + Numerals<O>>(
    alloc: Global,
    constant: &AnyConst<'t, O>,
    table: &mut KnownTable<'t, N>,
) -> Result<(), AllocError>
    ensures known { let c = const_of constant.now in
        OnOk result ((x : List ℕ) → known_in table.new x
        ≡ (if bytes_eq c.name.name x then known_by O.meaning (given_in table.old c.name.name) (known_in table.old) c.ty c.value else known_in table.old x)) }
    ensures given { OnOk result (given_in table.new ≡ given_in table.old) }
{
    let known = known_constant(alloc, constant, table)?;
    table.constants.put(constant.name.name.as_str(), known)?;
    Ok(())
}

/// What is known of a constant, by what is known of those before it. `Err` is want of memory.
fn known_constant<'t, O: Operator, N: Copy + Numerals<O>>(
    alloc: Global,
    constant: &AnyConst<O>,
    table: &KnownTable<'t, N>,
) -> Result<Option<Fixed>, AllocError>
    ensures { IfOk result
        (λ k. k ≡ known_by O.meaning (given_in table.now constant.now.name.now.name) (known_in table.now) constant.now.ty (option_map tree constant.now.value.now)) }
{
    match constant.value {
        Some(e) => worth_of(constant.ty, fold_noted(alloc, e, table)),
        None => Ok(fixed_as(constant.ty, table.given(constant.name.name.as_str()))),
    }
}

/// What an expression that was folded is worth, as the value of a constant of this type.
fn worth_of<O: Operator>(
    ty: Ty,
    noted: Result<(Expr<O>, Summary), AllocError>,
) -> Result<Option<Fixed>, AllocError>
    ensures { IfOk result (λ k. IsOkAnd noted (λ n. k ≡ fixed_as ty (worth n.1))) }
{
    let (e, summary) = noted?;
    drop(e);
    Ok(fixed_as(ty, worth(&summary)))
}

/// A value, where there is one, as that of a constant of this type.
fn fixed_as(ty: Ty, value: Option<Value>) -> Option<Fixed>
    ensures { result ≡ fixed_as ty value }
{
    match value {
        Some(value) => Some(Fixed { value, ty }),
        None => None,
    }
}

/// What the expression of a constant of this type becomes: it is folded, and where there is none, it is the literal of the value that is given for the
/// constant, if one is. `Err` is want of memory.
pub fn specialised_value<O: Operator, K: Constants<O>>(
    alloc: Global,
    ty: Ty,
    value: &Option<Expr<O>>,
    given: Option<Value>,
    constants: &K,
) -> Result<Option<Expr<O>>, AllocError>
    ensures { IfOk result
        (λ r. option_map tree r ≡ specialised_value O.meaning K.literal given (K.known constants.now) ty (option_map tree value.now)) }
{
    match value {
        Some(e) => Ok(Some(fold(alloc, e, constants)?)),
        None => match given {
            Some(value) => Ok(Some(K::literal(alloc, value, ty)?)),
            None => Ok(None),
        },
    }
}
