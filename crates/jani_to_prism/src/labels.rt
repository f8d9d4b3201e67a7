// Labels.

ghost use Rattle.std.specs.Prelude.{◌≡◌, map, IfOk};
ghost use Rattle.std.specs.List.{zip};
ghost use Rattle.op_trees.specs.Tree.{tree};
ghost use Rattle.prism_tree.specs.Syntax as prism;
ghost use Rattle.name_table.specs.JaniParts.{owned_of};
ghost use Rattle.prism_targets.specs.Elements.{elements};
ghost use Rattle.prism_targets.specs.Marks.{given_image, label_body, first_value, label};
ghost use Rattle.prism_modules.specs.Code.{file_in, names_in, IsReady};
ghost use Rattle.jani_to_prism.specs.Given.{given_of, label_step, AreGiven};

use crate::given::{Given, GivenTable};
use bridge_io::{List, together};
use gathering::shorter;
use name_table::{Entry, OwnedVar, instead};
use op_trees::three;
use prism_modules::{Names, falsehood, image, image_if, is_there};
use prism_tree::{PrismExpr, PrismLabel, PrismOp};
use std::alloc::{AllocError, Global};

/// The value that a location gives.
pub(crate) fn given_image(alloc: Global, names: &Names, g: &Given) -> Result<PrismExpr, AllocError>
    requires { IsReady names.now }
    ensures { IfOk result (λ r. tree r ≡ given_image (file_in names.now) (names_in names.now) (given_of g.now)) }
{
    image(alloc, names, g.element.number, g.value)
}

/// The value of a location where the element is at it, else another.
fn label_step(
    alloc: Global,
    names: &Names,
    g: &Given,
    other: PrismExpr,
) -> Result<PrismExpr, AllocError>
    requires { IsReady names.now }
    ensures { IfOk result (λ r. tree r ≡ label_step (file_in names.now) (names_in names.now) (given_of g.now) (tree other)) }
{
    let value = given_image(alloc, names, g);
    if !g.element.has_several() {
        return value;
    }
    let there = is_there(alloc, names, g.element.number, g.location);
    three(alloc, 0, PrismOp::Ite, there, value, Ok(other))
}

/// The value of the location that the element is at, else another.
fn label_body(
    alloc: Global,
    names: &Names,
    given: &[Given],
    other: PrismExpr,
) -> Result<PrismExpr, AllocError>
    requires { IsReady names.now }
    ensures { IfOk result (λ r. tree r ≡ label_body (file_in names.now) (names_in names.now) (tree other) (map given_of given.now)) }
{
    let mut body = other;
    let mut left = given.len();
    while left > 0 {
        left -= 1;
        body = label_step(alloc, names, &given[left], body)?;
    }
    Ok(body)
}

/// The first value of a transient variable, which is false where it has none.
fn first_value(alloc: Global, names: &Names, var: &OwnedVar) -> Result<PrismExpr, AllocError>
    requires { IsReady names.now }
    ensures { IfOk result (λ r. tree r ≡ first_value (file_in names.now) (names_in names.now) (owned_of var.now)) }
{
    let first = image_if(alloc, names, names.outside(), &var.var.start)?;
    match first {
        Some(first) => Ok(first),
        None => Ok(falsehood()),
    }
}

/// A label.
fn label(
    alloc: Global,
    names: &Names,
    table: &GivenTable,
    var: &OwnedVar,
    e: &Entry,
) -> Result<PrismLabel, AllocError>
    requires names { IsReady names.now }
    requires given { AreGiven table.now (elements (file_in names.now)) }
    ensures { IfOk result (λ r. prism.label_of r ≡ label (file_in names.now) (names_in names.now) (owned_of var.now) e.now.name) }
{
    let first = first_value(alloc, names, var)?;
    let body = label_body(alloc, names, table.given(var), first);
    let (name, body) = together(instead(alloc, &var.var.name, e.name.as_str()), body)?;
    Ok(PrismLabel { name, body })
}

/// The labels: boolean transient variables.
pub(crate) fn labels(
    alloc: Global,
    names: &Names,
    table: &GivenTable,
    vars: &[OwnedVar],
) -> Result<List<PrismLabel>, AllocError>
    requires names { IsReady names.now }
    requires given { AreGiven table.now (elements (file_in names.now)) }
    ensures { IfOk result (λ all. map prism.label_of all ≡
        map (λ p. label (file_in names.now) (names_in names.now) p.0 p.1.name) (zip (map owned_of vars.now) (names_in names.now).labels)) }
{
    let mut all = List::new(alloc);
    let count = shorter(vars.len(), names.entries.labels.len());
    for i in 0..count {
        all.push(label(alloc, names, table, &vars[i], &names.entries.labels[i])?)?;
    }
    Ok(all)
}
