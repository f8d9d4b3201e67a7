// Expressions that are made; constants and variables.

ghost use Rattle.std.specs.Prelude.{◌≡◌, map, IfOk};
ghost use Rattle.std.specs.List.{zip};
ghost use Rattle.std.specs.Option.{option_map};
ghost use Rattle.op_trees.specs.Tree.{tree};
ghost use Rattle.prism_tree.specs.Syntax as prism;
ghost use Rattle.jani_tree.specs.Syntax as jani;
ghost use Rattle.jani_meaning.specs.Scene.{has_condition};
ghost use Rattle.name_table.specs.JaniParts.{owned_of};
ghost use Rattle.name_table.specs.PrismAsks.{value_name};
ghost use Rattle.jani_images.specs.Image.{image};
ghost use Rattle.edge_tables.specs.Parts.{counted, constant, range_of, start_under, variable, scope_of, is_there};
ghost use Rattle.edge_tables.specs.Modules.{truth, falsehood};
ghost use Rattle.module_parts.specs.Code.{file_in, names_in, IsReady, lasting_of};

use crate::entries::{Names, name_at};
use crate::images::image;
use bridge_io::{List, Text, together};
use frac_core::Decimal;
use gathering::shorter;
use jani_tree::{JaniConst, JaniExpr, JaniKind};
use name_table::{Entry, OwnedVar, instead};
use op_trees::{Expr, two};
use prism_tree::{PrismConst, PrismExpr, PrismOp, PrismRange, PrismVar};
use std::alloc::{AllocError, Global};

// ---- expressions that are made

/// The truth value true.
pub fn truth() -> PrismExpr
    ensures { tree result ≡ truth }
{
    Expr::Truth(0, true)
}

/// The truth value false.
pub fn falsehood() -> PrismExpr
    ensures { tree result ≡ falsehood }
{
    Expr::Truth(0, false)
}

/// A number that counts something.
pub fn counted(n: usize) -> PrismExpr
    ensures { tree result ≡ counted n }
{
    Expr::Number(
        0,
        Decimal {
            real: false,
            negative: false,
            exponent: 0,
            digits: n as u128,
        },
    )
}

/// Whether the element with a number is at the location with a number.
pub fn is_there(
    alloc: Global,
    names: &Names,
    element: usize,
    location: usize,
) -> Result<PrismExpr, AllocError>
    ensures { IfOk result (λ r. tree r ≡ is_there (file_in names.now) (names_in names.now) element location) }
{
    let name = Text::copy_of(alloc, name_at(names.entries.locations, element))?;
    let variable = Expr::Name(0, name);
    two(
        alloc,
        0,
        PrismOp::Equal,
        Ok(variable),
        Ok(counted(location)),
    )
}

/// The image of an expression of an element, where there is one.
pub fn image_if(
    alloc: Global,
    names: &Names,
    element: usize,
    e: &Option<JaniExpr>,
) -> Result<Option<PrismExpr>, AllocError>
    requires { IsReady names.now }
    ensures { IfOk result (λ r. option_map tree r ≡
        option_map (image (value_name (file_in names.now) (names_in names.now) element)) (option_map tree e.now)) }
{
    match e {
        None => Ok(None),
        Some(e) => Ok(Some(image(alloc, names, element, e)?)),
    }
}

// ---- constants and variables

/// A constant keeps its type.
fn constant(
    alloc: Global,
    names: &Names,
    c: &JaniConst,
    e: &Entry,
) -> Result<PrismConst, AllocError>
    requires { IsReady names.now }
    ensures { IfOk result (λ r. prism.const_of r ≡ constant (file_in names.now) (names_in names.now) (jani.const_of c.now) e.now.name) }
{
    let value = image_if(alloc, names, names.outside(), &c.value);
    let (name, value) = together(instead(alloc, &c.name, e.name.as_str()), value)?;
    Ok(PrismConst {
        name,
        ty: c.ty,
        value,
    })
}

/// The constants.
pub fn constants(alloc: Global, names: &Names) -> Result<List<PrismConst>, AllocError>
    requires { IsReady names.now }
    ensures { IfOk result (λ all. map prism.const_of all ≡
        map (λ p. constant (file_in names.now) (names_in names.now) p.0 p.1.name) (zip (file_in names.now).constants (names_in names.now).constants)) }
{
    let constants = names.file.constants.as_slice();
    let mut all = List::new(alloc);
    let count = shorter(constants.len(), names.entries.constants.len());
    for i in 0..count {
        all.push(constant(alloc, names, &constants[i], &names.entries.constants[i])?)?;
    }
    Ok(all)
}

/// A bounded variable has a range.
fn range_of(
    alloc: Global,
    names: &Names,
    element: usize,
    kind: &JaniKind,
) -> Result<Option<PrismRange>, AllocError>
    requires { IsReady names.now }
    ensures { IfOk result (λ r. option_map prism.range_of r ≡
        range_of (file_in names.now) (names_in names.now) (value_name (file_in names.now) (names_in names.now) element) (jani.kind_of kind.now)) }
{
    match kind {
        JaniKind::Bounded(low, high) => {
            let low = image(alloc, names, element, low);
            let (low, high) = together(low, image(alloc, names, element, high))?;
            Ok(Some(PrismRange { low, high }))
        }
        _ => Ok(None),
    }
}

/// The element that a variable's expressions are read in.
pub fn scope_of(names: &Names, var: &OwnedVar) -> usize
    ensures { result ≡ scope_of (file_in names.now) (names_in names.now) (owned_of var.now) }
{
    match var.owner {
        Some(k) => k,
        None => names.outside(),
    }
}

/// A variable that is not transient, with its number.
#[derive(Clone, Copy)]
pub struct LastingVar<'a> {
    pub number: usize,
    pub owned: OwnedVar<'a>,
}

/// The first value, in a file without an initial condition.
fn start_of(
    alloc: Global,
    names: &Names,
    element: usize,
    start: &Option<JaniExpr>,
) -> Result<Option<PrismExpr>, AllocError>
    requires { IsReady names.now }
    ensures { IfOk result (λ r. option_map tree r ≡
        start_under (file_in names.now) (names_in names.now) (has_condition (file_in names.now))
        (option_map (image (value_name (file_in names.now) (names_in names.now) element)) (option_map tree start.now))) }
{
    if names.has_condition {
        return Ok(None);
    }
    image_if(alloc, names, element, start)
}

/// A variable that is not transient. `Err` is want of memory.
pub fn variable(alloc: Global, names: &Names, x: &LastingVar) -> Result<PrismVar, AllocError>
    requires { IsReady names.now }
    ensures { IfOk result (λ r. prism.var_of r ≡ variable (file_in names.now) (names_in names.now) (lasting_of x.now)) }
{
    let element = scope_of(names, &x.owned);
    let new = name_at(names.entries.variables, x.number);
    let var = x.owned.var;
    let start = start_of(alloc, names, element, &var.start);
    let values = together(start, range_of(alloc, names, element, &var.kind));
    let (name, (start, range)) = together(instead(alloc, &var.name, new), values)?;
    Ok(PrismVar { name, range, start })
}
