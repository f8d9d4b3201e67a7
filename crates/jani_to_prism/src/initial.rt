// The initial condition.

ghost use Rattle.std.specs.Prelude.{◌≡◌, ◌∷◌, [], None, Some, map, unwrap_or, IfOk};
ghost use Rattle.std.specs.List.{All, flat_map};
ghost use Rattle.std.specs.Option.{option_map};
ghost use Rattle.op_trees.specs.Tree.{Name as At, Two, tree};
ghost use Rattle.prism_tree.specs.declared.operator.PrismOp.TheVariants.{And, Equal};
ghost use Rattle.jani_images.specs.Image.{image};
ghost use Rattle.name_table.specs.JaniParts.{owned_of};
ghost use Rattle.name_table.specs.PrismAsks.{name_at, value_name};
ghost use Rattle.prism_translation.specs.Conditions.{condition, location_part, places, restriction_part, some_of, start_part};
ghost use Rattle.prism_translation.specs.Elements.{elements, lasting_variables};
ghost use Rattle.prism_translation.specs.Modules.{truth};
ghost use Rattle.prism_translation.specs.Parts.{scope_of};
ghost use Rattle.prism_modules.specs.Code.{file_in, names_in, IsReady, element_of, IsElement, lasting_of};
ghost use Rattle.jani_to_prism.specs.Joining.{so_far};

use bridge_io::Text;
use jani_tree::JaniExpr;
use op_trees::{Expr, two};
use prism_modules::{Element, LastingVar, Names, image, is_there, name_at, scope_of, truth};
use prism_tree::{PrismExpr, PrismOp};
use std::alloc::{AllocError, Global};

// ---- joining

/// One more of the expressions that are joined from the left.
fn joined(
    alloc: Global,
    op: PrismOp,
    before: Option<PrismExpr>,
    part: PrismExpr,
) -> Result<PrismExpr, AllocError>
    ensures { IfOk result (λ r. Some (tree r) ≡ so_far op (option_map tree before) (tree part ∷ [])) }
{
    match before {
        None => Ok(part),
        Some(all) => two(alloc, 0, op, Ok(all), Ok(part)),
    }
}

/// All that were joined; true where there is none.
fn or_truth(all: Option<PrismExpr>) -> PrismExpr
    ensures { tree result ≡ unwrap_or (option_map tree all) truth }
{
    match all {
        Some(e) => e,
        None => truth(),
    }
}

// ---- initial locations

/// The element is at one of its initial locations.
fn at_initial(alloc: Global, names: &Names, el: &Element) -> Result<PrismExpr, AllocError>
    requires { IsElement el.now }
    ensures { IfOk result (λ r. tree r ≡ some_of (places (file_in names.now) (names_in names.now) (element_of el.now))) }
{
    let mut all = None;
    for n in el.automaton.initial() {
        let place = is_there(alloc, names, el.number, el.location(n.name.as_str()))?;
        all = Some(joined(alloc, PrismOp::Or, all, place)?);
    }
    Ok(or_truth(all))
}

/// That, for an element with several locations, behind what there is.
fn with_location(
    alloc: Global,
    names: &Names,
    before: Option<PrismExpr>,
    el: &Element,
) -> Result<Option<PrismExpr>, AllocError>
    requires { IsElement el.now }
    ensures { IfOk result (λ r. option_map tree r ≡
        so_far And (option_map tree before) (location_part (file_in names.now) (names_in names.now) (element_of el.now))) }
{
    if !el.has_several() {
        return Ok(before);
    }
    let place = at_initial(alloc, names, el)?;
    Ok(Some(joined(alloc, PrismOp::And, before, place)?))
}

/// That, for all elements.
fn with_locations(
    alloc: Global,
    names: &Names,
    els: &[Element],
) -> Result<Option<PrismExpr>, AllocError>
    requires { All IsElement els.now }
    ensures { IfOk result (λ r. option_map tree r ≡
        so_far And None (flat_map (location_part (file_in names.now) (names_in names.now)) (map element_of els.now))) }
{
    let mut all = None;
    for i in 0..els.len() {
        all = with_location(alloc, names, all, &els[i])?;
    }
    Ok(all)
}

// ---- first values

/// The variable has its first value.
fn begins_as(
    alloc: Global,
    names: &Names,
    x: &LastingVar,
    e: &JaniExpr,
) -> Result<PrismExpr, AllocError>
    requires { IsReady names.now }
    ensures { IfOk result (λ r. tree r ≡ Two 0 Equal (At 0 (name_at (names_in names.now).variables x.now.number))
        (image (value_name (file_in names.now) (names_in names.now) (scope_of (file_in names.now) (names_in names.now) (owned_of x.now.owned))) (tree e.now))) }
{
    let name = Text::copy_of(alloc, name_at(names.entries.variables, x.number))?;
    let value = image(alloc, names, scope_of(names, &x.owned), e);
    two(alloc, 0, PrismOp::Equal, Ok(Expr::Name(0, name)), value)
}

/// That, for a variable with a first value, behind what there is.
fn with_start(
    alloc: Global,
    names: &Names,
    before: Option<PrismExpr>,
    x: &LastingVar,
) -> Result<Option<PrismExpr>, AllocError>
    requires { IsReady names.now }
    ensures { IfOk result (λ r. option_map tree r ≡
        so_far And (option_map tree before) (start_part (file_in names.now) (names_in names.now) (lasting_of x.now))) }
{
    match &x.owned.var.start {
        None => Ok(before),
        Some(e) => {
            let part = begins_as(alloc, names, x, e)?;
            Ok(Some(joined(alloc, PrismOp::And, before, part)?))
        }
    }
}

/// That, for all variables.
fn with_starts(
    alloc: Global,
    names: &Names,
    before: Option<PrismExpr>,
    vars: &[LastingVar],
) -> Result<Option<PrismExpr>, AllocError>
    requires { IsReady names.now }
    ensures { IfOk result (λ r. option_map tree r ≡
        so_far And (option_map tree before) (flat_map (start_part (file_in names.now) (names_in names.now)) (map lasting_of vars.now))) }
{
    let mut all = before;
    for i in 0..vars.len() {
        all = with_start(alloc, names, all, &vars[i])?;
    }
    Ok(all)
}

// ---- the whole

/// "restrict-initial", behind what there is.
fn with_restriction(
    alloc: Global,
    names: &Names,
    before: Option<PrismExpr>,
) -> Result<Option<PrismExpr>, AllocError>
    requires { IsReady names.now }
    ensures { IfOk result (λ r. option_map tree r ≡ so_far And (option_map tree before) (restriction_part (file_in names.now) (names_in names.now))) }
{
    match &names.file.restrict {
        None => Ok(before),
        Some(e) => {
            let part = image(alloc, names, names.outside(), e)?;
            Ok(Some(joined(alloc, PrismOp::And, before, part)?))
        }
    }
}

/// The parts of the condition, joined.
fn parts(
    alloc: Global,
    names: &Names,
    els: &[Element],
    vars: &[LastingVar],
) -> Result<Option<PrismExpr>, AllocError>
    requires names { IsReady names.now }
    requires located { All IsElement els.now }
    ensures { IfOk result (λ r. option_map tree r ≡
        so_far And (so_far And (so_far And None (flat_map (location_part (file_in names.now) (names_in names.now)) (map element_of els.now)))
        (flat_map (start_part (file_in names.now) (names_in names.now)) (map lasting_of vars.now))) (restriction_part (file_in names.now) (names_in names.now))) }
{
    let located = with_locations(alloc, names, els)?;
    let begun = with_starts(alloc, names, located, vars)?;
    with_restriction(alloc, names, begun)
}

/// The initial condition, if the file has one: each element with several locations is at one of its initial ones, each variable with a
/// first value has it, and the restriction holds.
pub(crate) fn condition(
    alloc: Global,
    names: &Names,
    els: &[Element],
    vars: &[LastingVar],
) -> Result<Option<PrismExpr>, AllocError>
    requires names { IsReady names.now }
    requires elements { map element_of els.now ≡ elements (file_in names.now) }
    requires located { All IsElement els.now }
    requires vars { map lasting_of vars.now ≡ lasting_variables (file_in names.now) }
    ensures { IfOk result (λ r. option_map tree r ≡ condition (file_in names.now) (names_in names.now)) }
{
    if !names.has_condition {
        return Ok(None);
    }
    let all = parts(alloc, names, els, vars)?;
    Ok(Some(or_truth(all)))
}
