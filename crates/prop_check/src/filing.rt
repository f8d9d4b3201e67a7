// Properties as those of a model: names marked, reward structures numbered.

ghost use Rattle.std.specs.Prelude.{◌≡◌, ◌++◌, [], ◌∷◌, map, IfOk, OnOk};
ghost use Rattle.std.specs.Option.{option_map};
ghost use Rattle.op_trees.specs.Tree.{renamed, tree};
ghost use Rattle.prop_grammar.specs.Property.{until_within};
ghost use Rattle.prop_grammar.specs.Syntax as written;
ghost use Rattle.prop_trees.specs.Names.{filed_name};
ghost use Rattle.prop_trees.specs.PrismFaults.{filed, number_of};
ghost use Rattle.prop_trees.specs.Syntax.{ask_of, path_of, property_of};
ghost use Rattle.prop_trees.specs.Trees.{ask_with, path_with};

use crate::marks::marked_expression;
use crate::scope::Scope;
use bridge_io::{List, Named, Text};
use prism_tree::PrismExpr;
use prop_grammar::{PathForm, Query, Structure, Written};
use prop_trees::{Ask, Path, Property};
use std::alloc::{AllocError, Global};

/// These properties as those of the model, in their order. `Err` is want of memory.
pub(crate) fn filed_properties(
    alloc: Global,
    scope: &Scope,
    all: &[Written],
) -> Result<List<Property>, AllocError>
    ensures { IfOk result (λ list. map property_of list ≡ map (filed scope.now.file) (map written.written_of all.now)) }
{
    let mut list = List::with_capacity(alloc, all.len())?;
    for p in all {
        add_filed(alloc, scope, p, &mut list)?;
    }
    Ok(list)
}

// Adds a property as one of the model.
fn add_filed(
    alloc: Global,
    scope: &Scope,
    p: &Written,
    list: &mut List<Property>,
) -> Result<(), AllocError>
    ensures { OnOk result (map property_of list.new ≡ map property_of list.old ++ filed scope.now.file (written.written_of p.now) ∷ []) }
{
    let property = filed_property(alloc, scope, p)?;
    list.push(property)
}

fn filed_property(alloc: Global, scope: &Scope, p: &Written) -> Result<Property, AllocError>
    ensures { IfOk result (λ q. property_of q ≡ filed scope.now.file (written.written_of p.now)) }
{
    let name = name_text(alloc, &p.name)?;
    let ask = filed_ask(alloc, scope, &p.ask)?;
    let path = filed_path(alloc, &p.path)?;
    Ok(Property { name, ask, path })
}

// The name of a property, if it has one.
fn name_text(alloc: Global, name: &Option<Named>) -> Result<Option<Text>, AllocError>
    ensures { IfOk result (λ text. text ≡ option_map (λ n. n.name) name.now) }
{
    match name {
        Some(name) => Ok(Some(Text::copy_of(alloc, name.name.as_str())?)),
        None => Ok(None),
    }
}

// What is asked, with the number of its reward structure.
fn filed_ask(alloc: Global, scope: &Scope, ask: &Query) -> Result<Ask, AllocError>
    ensures { IfOk result
        (λ r. ask_of r ≡ ask_with (renamed filed_name) (number_of scope.now.file) (written.ask_of ask.now)) }
{
    match ask {
        Query::PMax => Ok(Ask::PMax),
        Query::PMin => Ok(Ask::PMin),
        Query::PBound(compare, e) => Ok(Ask::PBound(*compare, marked_expression(alloc, e)?)),
        Query::RMax(structure) => Ok(Ask::RMax(number(scope, structure))),
        Query::RMin(structure) => Ok(Ask::RMin(number(scope, structure))),
    }
}

// The number of a reward structure, 0 where the file has not such a one.
fn number(scope: &Scope, structure: &Structure) -> usize
    ensures { result ≡ number_of scope.now.file structure.now }
{
    scope.structure(structure).unwrap_or(0)
}

fn filed_path(alloc: Global, path: &PathForm) -> Result<Path, AllocError>
    ensures { IfOk result (λ r. path_of r ≡ path_with (renamed filed_name) (written.path_of path.now)) }
{
    match path {
        PathForm::Finally(e) => Ok(Path::Finally(marked_expression(alloc, e)?)),
        PathForm::Globally(e) => Ok(Path::Globally(marked_expression(alloc, e)?)),
        PathForm::Until(a, b) => {
            let (first, second) = marked_both(alloc, a, b)?;
            Ok(Path::Until(first, second))
        }
        PathForm::WeakUntil(a, b) => {
            let (first, second) = marked_both(alloc, a, b)?;
            Ok(Path::WeakUntil(first, second))
        }
        PathForm::FinallyWithin(k, e) => {
            let (bound, target) = marked_both(alloc, k, e)?;
            Ok(Path::FinallyWithin(bound, target))
        }
        PathForm::UntilWithin(k, a, b) => until_within(alloc, k, a, b),
    }
}

// Two expressions with names marked.
fn marked_both(
    alloc: Global,
    a: &PrismExpr,
    b: &PrismExpr,
) -> Result<(PrismExpr, PrismExpr), AllocError>
    ensures first { IfOk result (λ r. tree r.0 ≡ renamed filed_name (tree a.now)) }
    ensures second { IfOk result (λ r. tree r.1 ≡ renamed filed_name (tree b.now)) }
{
    let first = marked_expression(alloc, a)?;
    let second = marked_expression(alloc, b)?;
    Ok((first, second))
}

// `a U<=k b`
fn until_within(
    alloc: Global,
    k: &PrismExpr,
    a: &PrismExpr,
    b: &PrismExpr,
) -> Result<Path, AllocError>
    ensures { IfOk result
        (λ r. path_of r ≡ until_within (renamed filed_name (tree k.now)) (renamed filed_name (tree a.now)) (renamed filed_name (tree b.now))) }
{
    let bound = marked_expression(alloc, k)?;
    let (first, second) = marked_both(alloc, a, b)?;
    Ok(Path::UntilWithin(bound, first, second))
}
