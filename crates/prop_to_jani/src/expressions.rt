// Expressions of properties as JSON values, by this project's own rule (specs/ToJani.antt). The members are those of the jani-model
// specification, version 1, "Expressions" and property expressions.

ghost use Rattle.std.specs.Prelude.{◌≡◌, IfOk};
ghost use Rattle.op_trees.specs.Tree.{tree};
ghost use Rattle.jani_table.specs.Node.{node};
ghost use Rattle.prop_trees.specs.Names.{built_in, meant};
ghost use Rattle.prop_trees.specs.JaniText.{expression_node, name_node};
ghost use Rattle.prop_to_jani.specs.Code.{translated_by};

use crate::bodies::written;
use crate::members::{object, operation, string, with};
use crate::names::{PropertyNames, model_name};
use decimal_json::Json;
use jani_tree::JaniExpr;
use name_table::Entry;
use op_trees::Expr;
use prism_images::image;
use prism_rewriter::BodyTable;
use prism_tree::PrismExpr;
use std::alloc::{AllocError, Global};

/// By what the properties of a model are translated: the new names of constants, variables and labels, the bodies of formulas, and the
/// entries of reward structures.
#[derive(Clone, Copy)]
pub(crate) struct Translator<'a, 'f, 'n, 'm> {
    pub(crate) names: &'a PropertyNames<'f, 'n>,
    pub(crate) bodies: &'a BodyTable<'m>,
    pub(crate) rewards: &'a [Entry],
}

impl<'a, 'f, 'n, 'm> Translator<'a, 'f, 'n, 'm> {
    /// The value of an expression's translation. `Err` is want of memory.
    pub(crate) fn json(&self, alloc: Global, e: &PrismExpr) -> Result<Json, AllocError>
        ensures { IfOk result (λ v. node v ≡ expression_node (translated_by self.now (tree e.now))) }
    {
        let new = self.translated(alloc, e)?;
        expression_json(alloc, &new)
    }

    /// An expression with formulas written out and new names.
    fn translated(&self, alloc: Global, e: &PrismExpr) -> Result<JaniExpr, AllocError>
        ensures { IfOk result (λ r. tree r ≡ translated_by self.now (tree e.now)) }
    {
        let whole = written(alloc, e, self.bodies)?;
        image(alloc, &whole, self.names)
    }
}

/// The value of an expression.
fn expression_json(alloc: Global, e: &JaniExpr) -> Result<Json, AllocError>
    ensures { IfOk result (λ v. node v ≡ expression_node (tree e.now)) }
{
    match e {
        Expr::Truth(at, b) => Ok(Json::Truth(*at, *b)),
        Expr::Number(at, d) => Ok(Json::Number(*at, *d)),
        Expr::Name(at, x) => name_json(alloc, *at, x.as_str()),
        Expr::One(at, op, a) => {
            let members = operation(alloc, op.text(), 2);
            object(*at, with(alloc, members, "exp", expression_json(alloc, a)))
        }
        Expr::Two(at, op, a, b) => {
            let members = operation(alloc, op.text(), 3);
            let members = with(alloc, members, "left", expression_json(alloc, a));
            object(
                *at,
                with(alloc, members, "right", expression_json(alloc, b)),
            )
        }
        Expr::Three(at, op, a, b, c) => {
            let members = operation(alloc, op.text(), 4);
            let members = with(alloc, members, "if", expression_json(alloc, a));
            let members = with(alloc, members, "then", expression_json(alloc, b));
            object(*at, with(alloc, members, "else", expression_json(alloc, c)))
        }
    }
}

/// The value of a name: without the point a string, and an object for a label that every model has.
fn name_json(alloc: Global, at: usize, name: &str) -> Result<Json, AllocError>
    ensures { IfOk result (λ v. node v ≡ name_node at name.now (meant name.now)) }
{
    match model_name(name) {
        Some(name) => string(alloc, at, name),
        None => other_json(alloc, at, name),
    }
}

/// The value of a name without a point.
fn other_json(alloc: Global, at: usize, name: &str) -> Result<Json, AllocError>
    ensures { IfOk result (λ v. node v ≡ name_node at name.now (built_in name.now)) }
{
    match name {
        "init" => object(at, operation(alloc, "initial", 1)),
        "deadlock" => object(at, operation(alloc, "deadlock", 1)),
        _ => string(alloc, at, name),
    }
}
